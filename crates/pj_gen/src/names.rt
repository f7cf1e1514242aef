//! Names of files and of lines.
ghost use Rattle.std.specs.Prelude.{◌≡◌, ◌<◌};
ghost use Rattle.pj_gen.specs.Changes.{file_name as name_of_file, line_name as name_of_line};

/// The numbers of the files, of the lines of a file, and of the lines of changes.
pub(crate) const EIGHT: [u8; 8] = [0, 1, 2, 3, 4, 5, 6, 7];

/// The name of a file by its number, below 8.
pub(crate) fn file_name(file: u8) -> [u8; 2]
    requires { file < 8 }
    ensures { result ≡ name_of_file file }
{
    [b'f', b'0' + file]
}

/// The name of a line by its number, below 8.
pub(crate) fn line_name(line: u8) -> [u8; 2]
    requires { line < 8 }
    ensures { result ≡ name_of_line line }
{
    [b'l', b'0' + line]
}
