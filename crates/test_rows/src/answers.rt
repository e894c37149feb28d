// Rows one after another.
use crate::texts::first_word;
use std::alloc::AllocError;
use std::io;

/// What a program does with its rows.
pub trait TestRows {
    /// A title was read: what rows have left so far doesn't stand any more.
    fn begin(&mut self) -> Result<(), AllocError>;

    /// Does what a line says, and adds what comes of it.
    fn take(&mut self, line: &str, out: &mut String) -> Result<(), AllocError>;
}

/// Does what a line says, and adds what comes of it: a title, which begins with `=`, as it stands. A line that is empty, or begins
/// with `#` and a space, says nothing.
fn take_line<R: TestRows>(rows: &mut R, line: &str, out: &mut String) -> Result<(), AllocError> {
    let (word, _) = first_word(line);
    match word {
        "" | "#" => Ok(()),
        "=" => {
            rows.begin()?;
            out.push_str(line)?;
            out.push('\n')
        }
        _ => rows.take(line, out),
    }
}

/// Does what all lines of standard input say, and prints what comes of them.
pub fn answer_rows<R: TestRows>(rt: &HostRuntime, rows: &mut R) -> io::Result<()> {
    let lines = io::read_to_string(rt.alloc(), rt.reader())?;
    let mut out = String::new(rt.alloc());
    for line in lines.lines() {
        take_line(rows, line, &mut out)?;
    }
    print!(rt; "{out}")
}
