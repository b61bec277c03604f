// The listed processes: document 01, "Processes".
ghost use Rattle.std.specs.Prelude.{◌≡◌};
ghost use Rattle.paper.specs.Process.{is_listed};

// Whether process n is listed: a run answers 28 to the others, and a deck that can only come to one is refused (11).
#[tactic(auto, using(crate::proofs::ListedLaws::ranges))]
pub(crate) fn is_listed(n: u16) -> bool
    ensures { result ≡ is_listed n }
{
    matches!(
        n,
        0..=6 | 8 | 9 | 20..=60 | 63 | 64 | 68 | 71 | 72 | 74 | 90
            | 110 | 111 | 114..=120 | 123..=125 | 130..=132 | 134 | 136 | 138 | 152 | 153
    )
}
