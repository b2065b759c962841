// The text writer for C.
ghost use Rattle.std.specs.Prelude.{◌≡◌, length};
ghost use Rattle.refusal.specs.Rules.{filled};
ghost use Rattle.classes.specs.Rule7.{classes_of};
ghost use Rattle.writer.specs.Output.{output_text};
ghost use Rattle.writer.specs.Written.{writer_verdict, written_of};
ghost use Rattle.capi.specs.Answers.{write_answer};

use refusal::Refusal;

#[repr(C)]
#[derive(Clone, Copy)]
pub struct WriteAnswer {
    pub number: u32,
    pub place: usize,
    pub bytes: usize,
}

impl From<Result<usize, Refusal>> for WriteAnswer {
    ghost from_gives = { λ written answer. answer ≡ write_answer written };

    fn from(written: Result<usize, Refusal>) -> WriteAnswer {
        match written {
            Ok(bytes) => WriteAnswer {
                number: 0,
                place: 0,
                bytes,
            },
            Err(r) => WriteAnswer {
                number: r.number(),
                place: r.place(),
                bytes: 0,
            },
        }
    }
}

// `writer::write_classes`. Rules 4, 14, 5, 6, 7 and 12; a refusal alters nothing.
#[unsafe(no_mangle)]
pub extern "C" fn wimpleclay_write_classes(
    p: u32,
    n: u32,
    residues: &[i32],
    levels: &[u8],
    marks: &[u8],
    text: &mut [u8],
) -> WriteAnswer
    ensures answer { result ≡ write_answer (written_of p n residues.now levels.now marks.now
        (length text.old)) }
    ensures text { text.new
        ≡ filled (writer_verdict p n residues.now levels.now marks.now (length text.old))
        (output_text p n (classes_of residues.now levels.now) marks.now) text.old }
{
    writer::write_classes(p, n, residues, levels, marks, text).into()
}
