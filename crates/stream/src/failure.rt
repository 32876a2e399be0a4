// Why a listing is not whole, and how that is told.
use std::io::Error;

// The input could not be read, or the listing not be written.
#[derive(Debug, Drop)]
pub enum Failure {
    Input(Error),
    Listing(Error),
}

impl Failure {
    pub fn tell<R: Eprint + AllocGlobal>(&self, rt: &R) {
        match self {
            Failure::Input(why) => tell(rt, "prs: the input cannot be read", why),
            Failure::Listing(why) => tell(rt, "prs: the listing cannot be written", why),
        }
    }
}

// A line on standard error: what failed, and why in the system's words, without its number.
pub fn tell<R: Eprint + AllocGlobal>(rt: &R, what: &str, why: &Error) {
    let _ = match why.to_string(rt.alloc()) {
        Ok(text) => {
            let words = words_of(text.as_str());
            eprintln!(rt; "{what}: {words}")
        }
        Err(_) => eprintln!(rt; "{what}"),
    };
}

fn words_of(text: &str) -> &str {
    match text.split_once(" (os error ") {
        Some((words, _)) => words,
        None => text,
    }
}
