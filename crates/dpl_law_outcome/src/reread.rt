//! What follows for the files of masks: read back, such a file holds just the two masks.
ghost use Rattle.dpl_law_outcome.specs.ReadBack.{MasksAreRead, MasksReadBack};

/// A file that begins with the records before the elements of a structure of some GDSII file, and goes on with two canonical lists of rectangles on two layers,
/// is a GDSII file of one structure, which is its top where none is named. Its two layers of datatype 0 have just the unit squares that the rectangles cover,
/// and its elements are one boundary for each rectangle, and nothing else.
pub fn masks_read_back()
    ensures { MasksReadBack }
{}

/// Such a file of at most 268,435,456 bytes, whose masks have at most 3,355,443 rectangles each, is read without a fault: it
/// has no more points on a layer than are taken, all of them in the range of coordinates.
pub fn masks_are_read()
    ensures { MasksAreRead }
{}
