//! That a request for memory was refused.
ghost use Rattle.refused_memory.specs.{WasRefused, is_fact};

/// A request for memory was refused. Only the calls of this crate make one.
#[derive(Clone, Copy, Debug, PartialEq, Eq)]
pub struct Memory {
    made: (),
    pub ghost cause: { WasRefused } by { is_fact },
}

// What tells that a request was refused. It has one impl, which no other crate can name.
trait Tells {
    ghost refused: { WasRefused };
}

fn told<T: Tells>() -> Memory {
    Memory { made: () }
}

// Called where std has just refused a request, and nowhere else.
pub(crate) fn refused() -> Memory {
    struct Std;

    impl Tells for Std {
        ghost use Rattle.refused_memory.specs.{refused_by_std};

        ghost refused = { refused_by_std };
    }

    told::<Std>()
}
