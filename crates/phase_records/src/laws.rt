//! A law on the text of reports. The function does nothing: its contract is the law.
ghost use Rattle.phase_records.specs.ReportLaws.{EachStepHasItsPrints};

/// The text has for each superstep all its prints and then its record, if both are in order.
pub fn each_step_has_its_prints()
    ensures { EachStepHasItsPrints }
{}
