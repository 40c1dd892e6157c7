ghost use Rattle.mm_text.specs.PrintedArrays.{ReadsPrintedArrays};

/// A printed array is read back, each element with its value. The function does nothing: its contract is the law.
pub fn printed_arrays_are_read()
    ensures { ReadsPrintedArrays }
{}
