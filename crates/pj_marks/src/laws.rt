//! A law over the definitions alone, as the contract of a function that does nothing.

ghost use Rattle.pj_marks.specs.Names.{LayoutsNameTheirClasses};

/// The layout of classes below a number names classes below it, so the layout of all classes that were reached may be marked.
pub fn layouts_name_their_classes()
    ensures { LayoutsNameTheirClasses }
{}
