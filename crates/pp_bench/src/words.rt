//! What the words of the command line ask for.

use crate::trouble::Trouble;
use pp_bench_traces::{Kind, LARGE, MOST_OPS, Size};

/// The kind of a trace, and how many operations one plan has.
pub fn kind_and_ops(words: &[String]) -> Result<(Kind, u64), Trouble> {
    let [kind, ops] = words else {
        return Err(Trouble::Words);
    };
    let kind = Kind::named(kind.as_str()).ok_or(Trouble::Words)?;
    let ops = ops.parse::<u64>().map_err(|_| Trouble::Words)?;
    if ops > MOST_OPS {
        return Err(Trouble::TooMany);
    }
    Ok((kind, ops))
}

/// How large a pool is: its frames, its page numbers, and the bytes of a page. Without these words it is the large pool of the traces.
pub fn size(words: &[String]) -> Result<Size, Trouble> {
    if words.is_empty() {
        return Ok(LARGE);
    }
    let [frames, pages, page_bytes] = words else {
        return Err(Trouble::Words);
    };
    Ok(Size {
        frames: number(frames)?,
        pages: number(pages)?,
        page_bytes: number(page_bytes)?,
    })
}

/// The number that the word is.
fn number(word: &String) -> Result<u32, Trouble> {
    word.parse::<u32>().map_err(|_| Trouble::Words)
}

/// How many operations make at least so many lines of a journal, where each makes four or five.
pub fn ops_of_lines(words: &[String]) -> Result<u64, Trouble> {
    let [lines] = words else {
        return Err(Trouble::Words);
    };
    let lines = lines.parse::<u64>().map_err(|_| Trouble::Words)?;
    let ops = lines.div_ceil(4);
    if ops > MOST_OPS {
        return Err(Trouble::TooMany);
    }
    Ok(ops)
}
