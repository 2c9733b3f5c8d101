use std::alloc::{AllocError, Global};

/// A front, a piece so many times, and a back.
pub fn repeated(
    alloc: Global,
    front: &str,
    piece: &str,
    count: usize,
    back: &str,
) -> Result<String, AllocError> {
    let mut text = String::from_str(alloc, front)?;
    for _ in 0..count {
        text.push_str(piece)?;
    }
    text.push_str(back)?;
    Ok(text)
}

/// A program whose three processes each count to this, with what they do each time and what they do at last.
pub fn counting(alloc: Global, most: u32, each: &str, last: &str) -> Result<String, AllocError> {
    format!(in alloc;
        "processes 3;\nvar x;\nbegin\n  while (x < {most}) {{ x = (x + 1); {each}}}\n{last}end\n"
    )
}
