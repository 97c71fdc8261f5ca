//! The arguments of the commands, and what their values have to be.
ghost use Rattle.std.specs.Prelude.{◌≡◌, ◌<◌, length};
ghost use Rattle.command_line.specs.Arguments.{form_line};

/// An argument whose value can be invalid. `Limit` is `--limit` of `org-add`, and `NewLimit` is `N` of `org-limit`. `Listening`
/// is the choice between `--port` and `--socket`, and `Counting` that between `--count` and `--unlimited`. `clap` itself refuses
/// words without `Command`, `Db` or `To`.
#[derive(Clone, Copy)]
pub enum Argument {
    Command,
    Db,
    To,
    Org,
    Name,
    Role,
    Limit,
    NewLimit,
    Until,
    Prefix,
    Listening,
    Port,
    Counting,
    Count,
    Idle,
    Most,
}

impl Argument {
    /// The line on the error stream that says what its value must be.
    pub fn line(self) -> &'static str
        ensures line { result.now ≡ form_line self }
        ensures some { 0 < length result.now }
    {
        match self {
            Argument::Command => "custody: the command is not one that --help lists\n",
            Argument::Db => "custody: --db needs the path of a file\n",
            Argument::To => "custody: --to needs the path of a file\n",
            Argument::Org => {
                "custody: the value of ORG must be 1 to 40 of a-z, 0-9 and '-', starting with a letter\n"
            }
            Argument::Name => {
                "custody: the value of NAME must be 1 to 40 of a-z, 0-9 and '-', starting with a letter\n"
            }
            Argument::Role => { "custody: the value of ROLE must be read, write or admin\n" }
            Argument::Limit => {
                "custody: the value of --limit must be 0 to 100000 without a leading zero\n"
            }
            Argument::NewLimit => {
                "custody: the value of N must be 0 to 100000 without a leading zero\n"
            }
            Argument::Until => {
                "custody: the value of --until must be 0 to 253402300799 without a leading zero\n"
            }
            Argument::Prefix => {
                "custody: the value of --prefix must be 0 to 90 ASCII letters, digits, '-' and '_'\n"
            }
            Argument::Listening => "custody: serve needs either --port P or --socket PATH\n",
            Argument::Port => {
                "custody: the value of --port must be 1 to 65535 without a leading zero\n"
            }
            Argument::Counting => "custody: serve needs either --count N or --unlimited\n",
            Argument::Count => {
                "custody: the value of --count must be 1 to 1000000 without a leading zero\n"
            }
            Argument::Idle => {
                "custody: the value of --idle must be 1 to 3600 without a leading zero\n"
            }
            Argument::Most => {
                "custody: the value of --most must be 1 to 3600 without a leading zero\n"
            }
        }
    }
}
