//! What holds of the definitions that the contracts cite. Each function is empty: its contract is
//! the law.

ghost use Rattle.lq_cli.specs.Worked.{CommandsAreRefused, CountsAreRefused, DrillIsRead, GenerateIsRead, OptionsAreRefused, ReleaseIsRead, RequiredSuffice, SoakIsRead, TagIsRead, TargetIsRead, UpdateIsRead};

/// Options stand in any order, each as one word or as two, and `-D` more than once.
pub fn update_is_read()
    ensures { UpdateIsRead }
{}

/// Words of other commands are read.
pub fn commands_are_read()
    ensures release { ReleaseIsRead }
    ensures tag { TagIsRead }
    ensures target { TargetIsRead }
    ensures drill { DrillIsRead }
    ensures generate { GenerateIsRead }
    ensures soak { SoakIsRead }
{}

/// A command wants no more than its required options.
pub fn required_suffice()
    ensures { RequiredSuffice }
{}

/// Words that only look like options, options that are missing, stand twice or have no value, and
/// those that the command does not take, are no command line.
pub fn options_are_refused()
    ensures { OptionsAreRefused }
{}

/// A count is written in decimal digits, without a sign or a leading zero, and has at most 32 bits.
pub fn counts_are_refused()
    ensures { CountsAreRefused }
{}

/// Words without a command, and values that say nothing, are no command line.
pub fn commands_are_refused()
    ensures { CommandsAreRefused }
{}
