//! Why a text is not built.

ghost use Rattle.std.specs.Prelude.{◌≡◌};
ghost use Rattle.quartz_build.specs.Refusals.{compile_refusal, lex_refusal, names_refusal, order_refusal, parse_refusal, types_refusal};
ghost use Rattle.quartz_build.specs.declared.fault.BuildFault.TheVariants.{NoMemory as no_memory};

use causality_check::OrderFault;
use quartz_lexer::LexFault;
use quartz_names::NamesFault;
use quartz_parser::ParseFault;
use quartz_tree::{NoMemory, Place};
use quartz_types::TypeFault;
use surface_depth::CompileFault;
use thiserror::Error;

/// Why a text is not built.
#[derive(Clone, Copy, Debug, PartialEq, Eq, Error)]
pub enum BuildFault {
    #[error("refused S{rule} at {}:{}", .place.line, .place.col)]
    Refused { rule: u8, place: Place },
    #[error("no memory")]
    NoMemory,
}

// Where a module is refused for its size, and what isn't built yet.
const ORIGIN: Place = Place { line: 1, col: 1 };

/// What isn't built yet: a text of several modules or with calls.
pub const NOT_BUILT: BuildFault = BuildFault::Refused {
    rule: 0,
    place: ORIGIN,
};

impl From<NoMemory> for BuildFault {
    ghost from_gives = { λ _ e. e ≡ no_memory };

    fn from(_e: NoMemory) -> BuildFault {
        BuildFault::NoMemory
    }
}

impl From<LexFault> for BuildFault {
    ghost from_gives = { λ f e. e ≡ lex_refusal f };

    fn from(fault: LexFault) -> BuildFault {
        match fault {
            LexFault::S1(place) => BuildFault::Refused { rule: 1, place },
            LexFault::NoMemory => BuildFault::NoMemory,
        }
    }
}

impl From<ParseFault> for BuildFault {
    ghost from_gives = { λ f e. e ≡ parse_refusal f };

    fn from(fault: ParseFault) -> BuildFault {
        match fault {
            ParseFault::S2(place) => BuildFault::Refused { rule: 2, place },
            ParseFault::NoMemory => BuildFault::NoMemory,
        }
    }
}

impl From<NamesFault> for BuildFault {
    ghost from_gives = { λ f e. e ≡ names_refusal f };

    fn from(fault: NamesFault) -> BuildFault {
        match fault {
            NamesFault::S3(place) => BuildFault::Refused { rule: 3, place },
            NamesFault::NoMemory => BuildFault::NoMemory,
        }
    }
}

impl From<TypeFault> for BuildFault {
    ghost from_gives = { λ f e. e ≡ types_refusal f };

    fn from(fault: TypeFault) -> BuildFault {
        match fault {
            TypeFault::Rule(rule, place) => BuildFault::Refused { rule, place },
            TypeFault::NoMemory => BuildFault::NoMemory,
        }
    }
}

impl From<CompileFault> for BuildFault {
    ghost from_gives = { λ f e. e ≡ compile_refusal f };

    fn from(fault: CompileFault) -> BuildFault {
        match fault {
            CompileFault::S8 => BuildFault::Refused {
                rule: 8,
                place: ORIGIN,
            },
            CompileFault::NoMemory => BuildFault::NoMemory,
        }
    }
}

impl From<OrderFault> for BuildFault {
    ghost from_gives = { λ f e. e ≡ order_refusal f };

    fn from(fault: OrderFault) -> BuildFault {
        match fault {
            OrderFault::Cycle(_, place) => BuildFault::Refused { rule: 9, place },
            OrderFault::NoMemory => BuildFault::NoMemory,
        }
    }
}
