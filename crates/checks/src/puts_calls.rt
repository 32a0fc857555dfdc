//! Put and call: no option is worth more than what it can bring.

ghost use Rattle.std.specs.Prelude.{◌≡◌, ◌<◌, ◌≤◌, Some, None};
ghost use Rattle.checks.specs.PutAndCall.{ceiling as ceiling_of, put_and_call, Ceiled};

use terms::{OptionType, Price, Refusal, Request, Side, Values};

/// The price that no buy may reach: of a put its strike, of a call the underlying value, if it is there.
fn ceiling(values: &Values) -> Option<Price>
    ensures { result ≡ ceiling_of values.now }
{
    match values.option {
        OptionType::Put => Some(values.strike),
        OptionType::Call => values.underlying,
    }
}

/// Turns down a buy that pays as much as the option can ever bring.
pub fn put_and_call(request: &Request, values: &Values) -> Result<(), Refusal>
    ensures value { result ≡ put_and_call request.now values.now }
    ensures ceiled { Ceiled request.now values.now result }
{
    let reaches = |ceiling| request.price >= ceiling;
    if request.side == Side::Buy && ceiling(values).is_some_and(reaches) {
        return Err(Refusal::PutAndCall);
    }
    Ok(())
}
