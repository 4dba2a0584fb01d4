// The lines of a listing, as text in a lent buffer.
#![tactic(auto)]

ghost use Rattle.std.specs.Prelude.{◌≡◌, ◌++◌, ◌≤◌, min, length};
ghost use Rattle.lines.specs.Lines.{decimal, newline, picture_line, frame_line, line_of, Adds};

use copies::copy;
use refusal::Refusal;
use state::{Report, Sizes};

// A line of a listing.
#[derive(Clone, Copy, Debug, PartialEq, Eq)]
pub enum Line {
    TooLarge,
    Picture(Sizes),
    // A frame's number and what stepping on reported of it.
    Frame(usize, Report),
    // The last line of a file that ends at a frame.
    End(usize),
    Refused(Refusal),
}

// A text in a lent buffer, and the place after it.
#[derive(Drop)]
struct Text<'a> {
    out: &'a mut [u8],
    at: usize,
    ghost inside: { at ≤ length out.now },
}

impl Text<'_> {
    // Adds a text, as far as the buffer goes.
    fn put(&mut self, text: &[u8])
        ensures same { self.new.out.ghost_name ≡ self.old.out.ghost_name }
        ensures adds { Adds self.old.out.now self.old.at (text.now) self.new.out.now self.new.at }
    {
        let at = self.at;
        copy(&mut self.out[at..], text);
        self.at += text.len().min(self.out.len() - at);
    }

    // Adds a number in decimal.
    // Kept: by hand and not by write!, since an impl of fmt::Write for Text, with what it has to state, is longer than this function.
    fn put_number(&mut self, number: usize)
        ensures same { self.new.out.ghost_name ≡ self.old.out.ghost_name }
        ensures adds { Adds self.old.out.now self.old.at (decimal number) self.new.out.now self.new.at }
    {
        if 10 <= number {
            self.put_number(number / 10);
        }
        self.put(&[b'0' + (number % 10) as u8]);
    }

    // Adds a word and a number.
    fn put_field(&mut self, word: &[u8], number: usize)
        ensures same { self.new.out.ghost_name ≡ self.old.out.ghost_name }
        ensures adds { Adds self.old.out.now self.old.at (word.now ++ decimal number) self.new.out.now self.new.at }
    {
        self.put(word);
        self.put_number(number);
    }

    // Adds a last line: a word and a number.
    fn put_last(&mut self, word: &[u8], number: usize)
        ensures same { self.new.out.ghost_name ≡ self.old.out.ghost_name }
        ensures adds { Adds self.old.out.now self.old.at ((word.now ++ decimal number) ++ newline) self.new.out.now self.new.at }
    {
        self.put_field(word, number);
        self.put(b"\n");
    }

    // Adds the first line: the picture's sizes.
    fn put_picture(&mut self, sizes: Sizes)
        ensures same { self.new.out.ghost_name ≡ self.old.out.ghost_name }
        ensures adds { Adds self.old.out.now self.old.at (picture_line sizes) self.new.out.now self.new.at }
    {
        self.put_field(b"picture ", sizes.width);
        self.put_field(b"x", sizes.height);
        self.put_field(b"x", sizes.planes);
        self.put(b"\n");
    }

    // Adds a frame's line: what stepping on reported of it.
    fn put_frame(&mut self, frame: usize, report: Report)
        ensures same { self.new.out.ghost_name ≡ self.old.out.ghost_name }
        ensures adds { Adds self.old.out.now self.old.at (frame_line frame report) self.new.out.now self.new.at }
    {
        self.put_field(b"frame ", frame);
        self.put_field(b" method ", report.method);
        self.put_field(b" time ", report.time);
        self.put_field(b" changed ", report.changed);
        self.put_field(b" record ", report.record_length);
        self.put(b"\n");
    }

    // Adds a line.
    #[tactic(auto, unfolding(crate::specs::Lines::end_line, crate::specs::Lines::refused_line))]
    fn put_line(&mut self, line: Line)
        ensures same { self.new.out.ghost_name ≡ self.old.out.ghost_name }
        ensures adds { Adds self.old.out.now self.old.at (line_of line) self.new.out.now self.new.at }
    {
        match line {
            Line::TooLarge => self.put(b"too large\n"),
            Line::Picture(sizes) => self.put_picture(sizes),
            Line::Frame(frame, report) => self.put_frame(frame, report),
            Line::End(frame) => self.put_last(b"end ", frame),
            Line::Refused(why) => self.put_last(b"refused ", why.number() as usize),
        }
    }
}

// Adds a line at a place of a text, as far as the buffer goes, and answers the place after it. A place past the buffer's end is its end.
pub fn put_line(out: &mut [u8], at: usize, line: Line) -> usize
    ensures { Adds out.old (min at (length out.old)) (line_of line) out.new result }
{
    let at = at.min(out.len());
    let mut text = Text { out, at };
    text.put_line(line);
    text.at
}
