//! Slips: taken, and then receipted or put back.

ghost use Rattle.std.specs.Prelude.{◌≡◌};
ghost use Rattle.market.specs.Book.{slip_of, waiting_of, handed};
ghost use Rattle.market.specs.Seen.{seen_slip};
ghost use Rattle.fields.specs.Admits.{Admits};
ghost use Rattle.history.specs.Acts.{Take as TakeAct};
ghost use Rattle.history.specs.Calls.{handed_refusal, is_oldest};
ghost use Rattle.gate.specs.Kept.{state_of, Steps};

use crate::desk::Gate;
use checks::Check;
use fields::Claim;
use market::Market;
use terms::{Event, Fill, Login, Refusal, Slip};

/// A slip as it is handed out to a login.
fn handed_out(login: u64, slip: Slip) -> Fill
    ensures { result ≡ handed login (seen_slip slip) }
{
    Fill {
        login,
        number: slip.number.into(),
        side: slip.side.into(),
        contracts: slip.contracts.into(),
        price: slip.price.into(),
    }
}

impl<'g, M: Market, C: Check> Gate<'g, M, C> {
    /// Hands out a login's oldest slip.
    pub(crate) fn take_slip(&mut self, login: u64) -> Result<Fill, Refusal>
        ensures { Steps M.Market C.Check self.old (Event.Take login result) self.new }
    {
        let taker = Login::try_from(login)?;
        let row = self.row(login);
        if row.is_free() {
            return Err(Refusal::NotOpen);
        }
        let slip = self.market.first_slip(taker).ok_or(Refusal::NoSlip)?;
        if row.out {
            return Err(Refusal::SlipOut);
        }
        self.set_out(taker, true);
        Ok(handed_out(login, slip))
    }

    /// Whether a slip is its login's oldest.
    fn is_oldest(&self, claim: Claim) -> bool
        ensures { result ≡ is_oldest (seen_slip claim.slip) (waiting_of (M.Market.book self.now.market.now) claim.login.value) }
    {
        self.market.first_slip(claim.login) == Some(claim.slip)
    }

    /// Lets through a slip that is out, as it was handed out.
    fn admit_slip(&self, fill: &Fill) -> Result<Login, Refusal>
        ensures { Admits (handed_refusal (state_of M.Market C.Check self.now) fill.now) (λ l. l.value ≡ fill.now.login) result }
    {
        let claim = Claim::try_from(fill)?;
        let row = self.row(fill.login);
        if row.is_free() {
            return Err(Refusal::NotOpen);
        }
        if row.out && self.is_oldest(claim) {
            Ok(claim.login)
        } else {
            Err(Refusal::WrongSlip)
        }
    }

    /// A slip that is out is receipted: it goes, and with the last one a login that is leaving is free.
    pub(crate) fn receipt_slip(&mut self, fill: Fill) -> Result<(), Refusal>
        ensures { Steps M.Market C.Check self.old (Event.Receipt fill result) self.new }
    {
        let login = self.admit_slip(&fill)?;
        let _ = self.market.drop_slip(login);
        let settled = self.none_wait(login);
        self.rows[login.index()].receipt(settled);
        Ok(())
    }

    /// A slip that is out is put back: it waits as before.
    pub(crate) fn put_slip_back(&mut self, fill: Fill) -> Result<(), Refusal>
        ensures { Steps M.Market C.Check self.old (Event.PutBack fill result) self.new }
    {
        let login = self.admit_slip(&fill)?;
        self.set_out(login, false);
        Ok(())
    }
}
