//! What `ticklab --version` tells; `tools/version` makes this file.

/// The version; the sum of the sources of `ticketc` and `ticklab`; the logic of the toolchain that proves them.
pub const VERSION: &str = "\
1.0\n\
sources 63fcbec31ccc821bc64495596edb8d937302c73c5939bb08cc90ec498d245420\n\
logic dac8208d650f15bf";
