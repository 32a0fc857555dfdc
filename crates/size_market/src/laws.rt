//! What holds of all rounds.

ghost use Rattle.size_market.specs.Runs.{RoundsInOrder, RoundsOpenSo};

/// Strikes in a round make its trades in order, all of them and no others; and a round that opens gives out what it should, by size.
pub fn rounds_stand()
    ensures order { RoundsInOrder }
    ensures opens { RoundsOpenSo }
{}
