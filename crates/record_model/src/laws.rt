//! The laws of records. Each function does nothing: its contract is the law.

ghost use Rattle.record_model.specs.Outliving.{RecordsOutliveValues};

/// Records stay right when values change, of elements and of leaves: they speak of levels, indices, children and leaves alone.
pub fn records_outlive_values()
    ensures { RecordsOutliveValues }
{}
