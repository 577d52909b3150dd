// The refusals of the checker, one case for each number of its document, and what an answer reports of one.
#![tactic(auto)]

ghost use Rattle.std.specs.Prelude.{◌≡◌};
ghost use Rattle.refusal.specs.Report.{report, report_of};

// Why a rule sheet, a plan, a mark table, a lent buffer or a call on a live state is turned away, in the order of their numbers. A case
// carries the part and the row that the document names for it, and no other.
#[derive(Clone, Copy)]
pub enum Refusal {
    RuleSizes,
    Kind { part: usize },
    Operand { part: usize },
    PlanSizes,
    Channels,
    StartDrift { row: usize },
    MarkSizes,
    MarkByte { part: usize, row: usize },
    Equation { part: usize, row: usize },
    Closing { part: usize, row: usize },
    Witness { part: usize },
    Absent,
    BufferLength,
    NoTable { part: usize, row: usize },
    NoLayout,
    Unwatchable,
    Unfitting,
}

// The three numbers that an answer gives of a refusal.
#[derive(Clone, Copy)]
pub struct Report {
    pub number: usize,
    pub part: usize,
    pub row: usize,
}

fn numbered(number: usize, part: usize, row: usize) -> Report
    ensures { result ≡ report number part row }
{
    Report { number, part, row }
}

pub fn report_of(refusal: Refusal) -> Report
    ensures { result ≡ report_of refusal }
{
    match refusal {
        Refusal::RuleSizes => numbered(1, 0, 0),
        Refusal::Kind { part } => numbered(2, part, 0),
        Refusal::Operand { part } => numbered(3, part, 0),
        Refusal::PlanSizes => numbered(4, 0, 0),
        Refusal::Channels => numbered(5, 0, 0),
        Refusal::StartDrift { row } => numbered(6, 0, row),
        Refusal::MarkSizes => numbered(7, 0, 0),
        Refusal::MarkByte { part, row } => numbered(8, part, row),
        Refusal::Equation { part, row } => numbered(9, part, row),
        Refusal::Closing { part, row } => numbered(10, part, row),
        Refusal::Witness { part } => numbered(11, part, 0),
        Refusal::Absent => numbered(12, 0, 0),
        Refusal::BufferLength => numbered(13, 0, 0),
        Refusal::NoTable { part, row } => numbered(14, part, row),
        Refusal::NoLayout => numbered(15, 0, 0),
        Refusal::Unwatchable => numbered(16, 0, 0),
        Refusal::Unfitting => numbered(17, 0, 0),
    }
}
