//! The notation of the examples. Exchanges are separated by an empty line; each is a line for the request, which is the
//! caller, the moment (on 2026-03-01 if no day is given), the method, the target and the body, and then the answer,
//! which is the status and the body. If the body is a file, its lines stand between the two, each after `> `.

use crate::failure::Failure;
use plant_types::UnitCode;
use std::alloc::Global;

/// How many bytes the requests and their answers have up to the end of one exchange.
#[derive(Clone, Copy)]
pub struct Mark {
    pub asked: usize,
    pub answered: usize,
}

/// The mark before all exchanges.
pub const BEGIN: Mark = Mark {
    asked: 0,
    answered: 0,
};

/// Requests, the answers that are expected, and the units that the requests name, each once.
#[derive(Drop)]
pub struct Exchanges {
    pub requests: String,
    pub answers: String,
    pub marks: Vec<Mark>,
    pub units: Vec<UnitCode>,
    alloc: Global,
}

fn phrase(status: &str) -> &'static str {
    match status {
        "200" => "OK",
        "400" => "Bad Request",
        "403" => "Forbidden",
        "404" => "Not Found",
        "409" => "Conflict",
        "501" => "Not Implemented",
        _ => "Service Unavailable",
    }
}

/// Adds these texts.
pub fn push_all(out: &mut String, parts: &[&str]) -> Result<(), Failure> {
    for part in parts {
        out.push_str(part)?;
    }
    Ok(())
}

/// Adds a number in digits.
fn push_number(out: &mut String, number: usize) -> Result<(), Failure> {
    write!(out, "{number}")?;
    Ok(())
}

/// A number in digits between two texts.
pub fn numbered(
    alloc: Global,
    before: &str,
    number: usize,
    behind: &str,
) -> Result<String, Failure> {
    let mut out = String::new(alloc);
    out.push_str(before)?;
    push_number(&mut out, number)?;
    out.push_str(behind)?;
    Ok(out)
}

/// The two texts around the first place of this one.
fn parts(text: &str, between: char) -> Result<(&str, &str), Failure> {
    text.split_once(between).ok_or(Failure::Notation)
}

/// Adds a moment, given by its time of day or whole.
fn add_moment(out: &mut String, moment: &str) -> Result<(), Failure> {
    if moment.len() == 8 {
        push_all(out, &["2026-03-01T", moment, "Z"])
    } else {
        push_all(out, &[moment])
    }
}

/// The file that a text begins with, whose lines each stand after `> `, and the text after it.
fn file_before(alloc: Global, text: &str) -> Result<(String, &str), Failure> {
    let mut file = String::new(alloc);
    let mut length = 0usize;
    for line in text.split('\n') {
        let Some(row) = line.strip_prefix("> ") else {
            break;
        };
        push_all(&mut file, &[row, "\n"])?;
        length = length.saturating_add(line.len()).saturating_add(1);
    }
    let rest = text.get(length..).ok_or(Failure::Notation)?;
    Ok((file, rest))
}

/// Adds the length of a body, if any, and the body.
fn add_body(out: &mut String, body: &str) -> Result<(), Failure> {
    if !body.is_empty() {
        push_all(out, &["Content-Length: "])?;
        push_number(out, body.len())?;
        push_all(out, &["\r\n"])?;
    }
    push_all(out, &["\r\n", body])
}

/// Adds the request of one line, whose body is the file, if any.
pub fn add_request(out: &mut String, line: &str, file: &str) -> Result<(), Failure> {
    let (person, rest) = parts(line, ' ')?;
    let (moment, rest) = parts(rest, ' ')?;
    let (method, rest) = parts(rest, ' ')?;
    let (target, words) = rest.split_once(' ').unwrap_or((rest, ""));
    push_all(out, &[method, " ", target, " HTTP/1.1\r\nX-Person: "])?;
    push_all(out, &[person, "\r\nX-Moment: "])?;
    add_moment(out, moment)?;
    push_all(out, &["\r\n"])?;
    add_body(out, if file.is_empty() { words } else { file })
}

/// Adds the answer of a status and a body: a JSON object, or lines of text that each end with a line feed.
pub fn add_answer(out: &mut String, answer: &str) -> Result<(), Failure> {
    let (status, body) = parts(answer, ' ')?;
    let (media, feed) = if body.starts_with('{') {
        ("application/json", "")
    } else {
        ("text/plain", "\n")
    };
    push_all(out, &["HTTP/1.1 ", status, " "])?;
    push_all(out, &[phrase(status), "\r\nContent-Type: ", media])?;
    push_all(out, &["\r\nContent-Length: "])?;
    push_number(out, body.len().saturating_add(feed.len()))?;
    push_all(out, &["\r\n\r\n", body, feed])
}

/// The unit that the target of an exchange names, if any.
fn unit_of_exchange(exchange: &str) -> &str {
    let target = exchange.split([' ', '\n']).nth(3).unwrap_or("");
    target.split('/').nth(2).unwrap_or("")
}

impl Exchanges {
    /// None yet.
    pub fn new(alloc: Global) -> Exchanges {
        Exchanges {
            requests: String::new(alloc),
            answers: String::new(alloc),
            marks: Vec::new(alloc),
            units: Vec::new(alloc),
            alloc,
        }
    }

    /// The exchanges of these texts, one after another.
    pub fn of(alloc: Global, texts: &[&str]) -> Result<Exchanges, Failure> {
        let mut exchanges = Exchanges::new(alloc);
        for text in texts {
            exchanges.add_all(text)?;
        }
        Ok(exchanges)
    }

    /// Adds one exchange.
    pub fn add(&mut self, exchange: &str) -> Result<(), Failure> {
        let (request, rest) = parts(exchange, '\n')?;
        let (file, answer) = file_before(self.alloc, rest)?;
        add_request(&mut self.requests, request, &file)?;
        add_answer(&mut self.answers, answer)?;
        self.add_mark()?;
        self.add_unit(unit_of_exchange(exchange))
    }

    /// Marks the end of the last exchange.
    fn add_mark(&mut self) -> Result<(), Failure> {
        let mark = Mark {
            asked: self.requests.len(),
            answered: self.answers.len(),
        };
        self.marks.push(mark)?;
        Ok(())
    }

    /// Adds a unit if it is not there yet. A text that is not a unit's code is skipped.
    fn add_unit(&mut self, name: &str) -> Result<(), Failure> {
        if let Some(unit) = UnitCode::read(self.alloc, name.as_bytes())? {
            if !self.units.contains(&unit) {
                self.units.push(unit)?;
            }
        }
        Ok(())
    }

    /// Adds the exchanges of a text, which may have none.
    pub fn add_all(&mut self, text: &str) -> Result<(), Failure> {
        for exchange in text.split("\n\n") {
            if !exchange.is_empty() {
                self.add(exchange)?;
            }
        }
        Ok(())
    }
}

/// The requests and the answers from one mark to the next.
pub fn between(wanted: &Exchanges, last: Mark, next: Mark) -> Result<(&[u8], &[u8]), Failure> {
    let requests = wanted.requests.as_bytes().get(last.asked..next.asked);
    let answers = wanted.answers.as_bytes().get(last.answered..next.answered);
    match (requests, answers) {
        (Some(requests), Some(answers)) => Ok((requests, answers)),
        _ => Err(Failure::Notation),
    }
}
