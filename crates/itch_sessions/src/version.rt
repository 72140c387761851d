//! The version of the program.

/// The program's version, the toolchain that it is proved with, as `rt version` prints it, and whether it is a released build.
/// `./make-release` replaces the last words in the released program by a text of the same length: `release` and the beginning of the hash of
/// the sources.
pub const VERSION: &str =
    "0.1.0 (proved with rattle-kit-13f logic dac8208d650f15bf, not a released build)";
