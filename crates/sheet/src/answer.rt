// What is printed.
use crate::run::Run;
use recording::Answer;
use refusal::Refusal;
use std::io;
use std::io::Write;
use text::{before, print_bytes};

// The total of a finish, and how many changes were skipped; of probe 1 only where a record names it.
fn print_finished<W: Write>(to: &mut W, run: &Run, total: u32) -> io::Result<()> {
    let skipped = run.state.skipped;
    write!(to, "finished {total} skipped {skipped}")?;
    if run.both {
        let skipped_1 = run.state.skipped_1;
        write!(to, " {skipped_1}")?;
    }
    Ok(())
}

// The answer of a call, without a line feed.
pub fn print_answer<W: Write>(
    to: &mut W,
    run: &Run,
    answer: Result<Answer, Refusal>,
) -> io::Result<()> {
    match answer {
        Ok(Answer::Started) => write!(to, "started"),
        Ok(Answer::Taken) => write!(to, "taken"),
        Ok(Answer::Same) => write!(to, "same"),
        Ok(Answer::Back) => write!(to, "back"),
        Ok(Answer::Recorded) => write!(to, "recorded"),
        Ok(Answer::Skipped) => write!(to, "skipped"),
        Ok(Answer::Finished(total)) => print_finished(to, run, total),
        Err(refusal) => {
            let number = refusal.number();
            write!(to, "refused {number}")
        }
    }
}

// An image, as digits on a line.
pub fn print_image<W: Write>(to: &mut W, image: &[u8]) -> io::Result<()> {
    write!(to, "image ")?;
    print_bytes(to, image)?;
    write!(to, "\n")
}

// The answer of a call on a line. A refusal tells if anything moved, and a finish is followed by the image.
pub fn print_made<W: Write>(
    to: &mut W,
    run: &Run,
    answer: Result<Answer, Refusal>,
    moved: bool,
    image: &[u8],
) -> io::Result<()> {
    print_answer(to, run, answer)?;
    if answer.is_err() && moved {
        write!(to, " changed")?;
    }
    write!(to, "\n")?;
    if let Ok(Answer::Finished(total)) = answer {
        print_image(to, before(image, total as usize))?;
    }
    Ok(())
}
