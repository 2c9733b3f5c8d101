// Pieces of markup that stand at several places of pictures.

pub const STEP_AT: &str = "<text class=\"step\" x=\"";

pub const AND_Y: &str = "\" y=\"";

pub const AND_COLOUR: &str = "\" color=\"";

pub const PATH_FROM: &str = " d=\"M";

pub const PATH_END: &str = "\"/>";

pub const WORDS_END: &str = "</text>";

pub const TEXT_END: &str = "</text>\n";

pub const TITLE_END: &str = "</title>";

pub const GROUP_END: &str = "</g>\n";

pub const PICTURE_END: &str = "</svg>\n";
