// Worked prices: what the library finds for each line of document 01, "Prices worked out", for the examples of source document 004, for
// the programs that would look finished, for closes off the ladder, on each of the three tables, and for some lines more, compared with what
// is due. Each line ends with right or WRONG.
//
// A line that cannot be written ends the program with that error, and nothing is written after it.
#![tactic(auto)]

mod reporting; // reporting.rt: a line of output, right or WRONG
mod paper; // paper.rt: lines A to P, and source document 004
mod wrong_programs; // wrong_programs.rt: answers of wrong programs that must not come out
mod further; // further.rt: lines beyond those of the paper
mod old_closes; // old_closes.rt: closes and nominal prices off the ladder
mod by_table; // by_table.rt: lines that tell the three tables apart
mod days; // days.rt: a day book, and orders that are filled from it

use std::io;

fn main(rt: HostRuntime) -> io::Result<()> {
    paper::a_to_d(&rt)?;
    paper::e_to_j(&rt)?;
    paper::k_and_l(&rt)?;
    paper::m(&rt)?;
    paper::n_to_p(&rt)?;
    paper::ladder_prices(&rt)?;
    paper::source_document_004(&rt)?;
    wrong_programs::steps_and_rounding(&rt)?;
    wrong_programs::missing_close(&rt)?;
    wrong_programs::nine_fold(&rt)?;
    further::opening(&rt)?;
    further::neither(&rt)?;
    further::one_queue(&rt)?;
    further::special(&rt)?;
    further::nine_fold(&rt)?;
    further::refused(&rt)?;
    further::security_codes(&rt)?;
    further::trades(&rt)?;
    old_closes::steps(&rt)?;
    old_closes::limits_of_closes(&rt)?;
    old_closes::questions(&rt)?;
    old_closes::refused(&rt)?;
    old_closes::trades(&rt)?;
    by_table::steps(&rt)?;
    by_table::places(&rt)?;
    by_table::limits(&rt)?;
    by_table::questions(&rt)?;
    by_table::trades(&rt)?;
    days::opening(&rt)?;
    days::quotes(&rt)
}
