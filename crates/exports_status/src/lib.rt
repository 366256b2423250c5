// A refusal as one number: the convention of every exported call.
//
//     exports_status::status(Refusal::at(Kind::RepeatedId, 3))  // 9 + 256 * 3
//     exports_status::finished(Ok(()))                          // 0
//
// 0 grants; else a status is the refusal's number plus 256 times its index.
#![tactic(auto)]

ghost use Rattle.std.specs.Prelude.{◌≡◌};
ghost use Rattle.refusal.specs.Outcomes.{refused_as, finished_outcome};
ghost use Rattle.exports_status.specs.Status.{status_of};

use refusal::{Kind, Refusal};

// The status where a lent slice has another number of words than there are values.
pub const WRONG_LENGTH: u64 = 1;

pub fn status(r: Refusal) -> u64
    ensures { result ≡ status_of (refused_as r) }
{
    (r.index % 0x100_0000_0000_0000) as u64 * 256 + r.kind.number() as u64
}

// The status of a call that grants nothing but that it was done.
pub fn finished(answer: Result<(), Refusal>) -> u64
    ensures { result ≡ status_of (finished_outcome answer) }
{
    match answer {
        Ok(()) => 0,
        Err(refusal) => status(refusal),
    }
}
