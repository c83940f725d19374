//! The first word of a command line, and the options that it allows.

ghost use Rattle.std.specs.Prelude.{◌≡◌};
ghost use Rattle.command_words.specs.Words.{verb_name, verbs, verb_among, options_of as options_by};

use crate::arguments::Argument;

/// The command that the first word names.
#[derive(Clone, Copy, Debug)]
pub(crate) enum Verb {
    Run,
    Check,
    Aif,
    Plan,
    Load,
    Convert,
    Verify,
}

impl Verb {
    const ALL: [Verb; 7] = [
        Verb::Run,
        Verb::Check,
        Verb::Aif,
        Verb::Plan,
        Verb::Load,
        Verb::Convert,
        Verb::Verify,
    ];

    fn name(self) -> &'static str
        ensures { result.now ≡ verb_name self }
    {
        match self {
            Verb::Run => "run",
            Verb::Check => "check",
            Verb::Aif => "aif",
            Verb::Plan => "plan",
            Verb::Load => "load",
            Verb::Convert => "convert",
            Verb::Verify => "verify",
        }
    }

    // The verb among these that has this name.
    fn find(verbs: &[Verb], name: &str) -> Option<Verb>
        ensures { result ≡ verb_among verbs.now name.now }
    {
        for &verb in verbs {
            if verb.name() == name {
                return Some(verb);
            }
        }
        None
    }

    /// The verb of this name. No name is shortened.
    pub(crate) fn of_name(name: &str) -> Option<Verb>
        ensures { result ≡ verb_among verbs name.now }
    {
        Verb::find(&Verb::ALL, name)
    }

    /// The options that its command takes.
    pub(crate) fn options(self) -> &'static [Argument]
        ensures { result.now ≡ options_by self }
    {
        match self {
            Verb::Run => &[
                Argument::Stages,
                Argument::Workers,
                Argument::Ring,
                Argument::MaxSteps,
                Argument::Witness,
            ],
            Verb::Check => &[Argument::Strict],
            Verb::Plan => &[Argument::Stages],
            Verb::Load => &[
                Argument::Seed,
                Argument::Steps,
                Argument::Stages,
                Argument::Workers,
                Argument::Ring,
            ],
            Verb::Convert => &[Argument::To],
            Verb::Aif | Verb::Verify => &[],
        }
    }
}
