//! Laws of the definitions: each contract is a theorem, and no body does anything.

ghost use Rattle.flow_commands.specs.Report.{ReportStatesDirections, ReportStatesNodes, ReportStatesTrees};
ghost use Rattle.flow_commands.specs.Start.{EachStartGivesOne};

/// For each shop, each text gives one sequence as a start, or one fault.
pub fn each_start_gives_one()
    ensures { EachStartGivesOne }
{}

/// A report states how many directions a lawful two-ended certificate has, how many nodes a lawful counted one states,
/// and how many trees a lawful certificate with trees has.
pub fn report_states_lengths()
    ensures directions { ReportStatesDirections }
    ensures nodes { ReportStatesNodes }
    ensures trees { ReportStatesTrees }
{}
