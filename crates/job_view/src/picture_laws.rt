//! Laws of pictures. Each is the contract of a function without parameters that does nothing.
ghost use Rattle.job_view.specs.WorkedPictures.{PicturesAreWorkedOut};
ghost use Rattle.job_view.specs.Texts.{NamesAreText};
ghost use Rattle.job_view.specs.WorkedPanels.{PanelsAreWorkedOut};

/// One picture, line by line; what a title says of how a job ended; and how columns are joined.
pub fn pictures_are_worked_out()
    ensures { PicturesAreWorkedOut }
{}

/// A board, an array over supersteps and small boards of an array, line by line, with their heights, and titles with names.
pub fn panels_are_worked_out()
    ensures { PanelsAreWorkedOut }
{}

/// Each name and title, whatever its bytes, is a text of XML in the picture: it has no `<`, no bare `&`, no byte below the space,
/// and neither U+FFFE nor U+FFFF.
pub fn names_are_text()
    ensures { NamesAreText }
{}
