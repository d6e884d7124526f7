// An outcome and a value split as numbers, for programs in C or Rust.
use model::{Numbers, Refusal};
use values::Rewritten;

// n = 0 and a record of `a` bytes, or a refusal's N, A and B.
// Not `model::Numbers`, which are a refusal's alone: this one is C's, so its layout is fixed.
#[repr(C)]
#[derive(Clone, Copy)]
pub struct Answer {
    pub n: u64,
    pub a: u64,
    pub b: u64,
}

impl From<Result<usize, Refusal>> for Answer {
    ghost use Rattle.std.specs.Prelude.{◌≡◌};
    ghost use Rattle.builder.specs.numbers.Answers.{answer_of};

    ghost from_gives = { λ o x. x ≡ answer_of o };

    fn from(outcome: Result<usize, Refusal>) -> Answer {
        match outcome {
            Ok(total) => Answer {
                n: 0,
                a: total as u64,
                b: 0,
            },
            Err(r) => {
                let x = Numbers::from(r);
                Answer {
                    n: x.n,
                    a: x.a,
                    b: x.b,
                }
            }
        }
    }
}

// A refusal's N, A and B; or n = 0, and whether the values are rewritten: so many bytes of the scratch slice are then the
// allowed values, and the text's bytes between two places the default.
#[repr(C)]
#[derive(Clone, Copy)]
pub struct SplitAnswer {
    pub n: u64,
    pub a: u64,
    pub b: u64,
    pub rewritten: u64,
    pub length: usize,
    pub from: usize,
    pub to: usize,
}

impl From<Result<Option<Rewritten>, Refusal>> for SplitAnswer {
    ghost use Rattle.std.specs.Prelude.{◌≡◌};
    ghost use Rattle.builder.specs.numbers.Answers.{split_answer};

    ghost from_gives = { λ s x. x ≡ split_answer s };

    fn from(split: Result<Option<Rewritten>, Refusal>) -> SplitAnswer {
        match split {
            Ok(None) => SplitAnswer {
                n: 0,
                a: 0,
                b: 0,
                rewritten: 0,
                length: 0,
                from: 0,
                to: 0,
            },
            Ok(Some(r)) => SplitAnswer {
                n: 0,
                a: 0,
                b: 0,
                rewritten: 1,
                length: r.bytes,
                from: r.from,
                to: r.to,
            },
            Err(r) => {
                let x = Numbers::from(r);
                SplitAnswer {
                    n: x.n,
                    a: x.a,
                    b: x.b,
                    rewritten: 0,
                    length: 0,
                    from: 0,
                    to: 0,
                }
            }
        }
    }
}
