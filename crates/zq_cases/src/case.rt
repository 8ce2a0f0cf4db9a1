use std::alloc::{AllocError, Global};

/// A call, how it is made, what is read, and the status and the text that are due; each as its lines are written.
#[derive(Drop)]
pub(crate) struct Case {
    pub(crate) words: String,
    pub(crate) plan: Vec<String>,
    pub(crate) input: Vec<String>,
    pub(crate) status: String,
    pub(crate) text: Vec<String>,
}

impl Case {
    // A call with these words, of which nothing more was heard.
    fn of_words(alloc: Global, words: &str) -> Result<Case, AllocError> {
        Ok(Case {
            words: String::from_str(alloc, words)?,
            plan: Vec::new(alloc),
            input: Vec::new(alloc),
            status: String::new(alloc),
            text: Vec::new(alloc),
        })
    }

    /// Whether nothing is said of the streams, and nothing due but a status and a text.
    pub(crate) fn is_plain(&self) -> bool {
        for line in &self.plan {
            if !line.starts_with("each ") && !line.starts_with("for ") {
                return false;
            }
        }
        !self.status.as_str().contains(' ')
    }

    // Hears a line behind the first.
    fn hear(&mut self, alloc: Global, line: &str) -> Result<(), AllocError> {
        if let Some(status) = line.strip_prefix("<= ") {
            return self.status.push_str(status);
        }
        if let Some(part) = line.strip_prefix("-> ") {
            return add(alloc, &mut self.plan, part);
        }
        if self.status.is_empty() {
            return add(alloc, &mut self.input, line);
        }
        if line.is_empty() || line.starts_with('#') {
            return Ok(());
        }
        add(alloc, &mut self.text, line)
    }
}

fn add(alloc: Global, lines: &mut Vec<String>, line: &str) -> Result<(), AllocError> {
    lines.push(String::from_str(alloc, line)?)?;
    Ok(())
}

/// The words of a line that begins a case.
fn words_of(line: &str) -> Option<&str> {
    if line == "=>" {
        return Some("");
    }
    line.strip_prefix("=> ")
}

// Adds a line to the last case, or begins one. Before the first case lines are comments.
fn add_line(alloc: Global, cases: &mut Vec<Case>, line: &str) -> Result<(), AllocError> {
    if let Some(words) = words_of(line) {
        cases.push(Case::of_words(alloc, words)?)?;
        return Ok(());
    }
    match cases.last_mut() {
        Some(case) => case.hear(alloc, line),
        None => Ok(()),
    }
}

/// The cases of a file.
pub(crate) fn cases(alloc: Global, text: &str) -> Result<Vec<Case>, AllocError> {
    let mut cases = Vec::new(alloc);
    for line in text.lines() {
        add_line(alloc, &mut cases, line)?;
    }
    Ok(cases)
}
