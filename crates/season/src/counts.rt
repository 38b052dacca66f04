// How many calls of each kind were accepted, or refused by which number, and what came of them.
use std::{fmt, io};
use words::refusals::Refusal;

#[derive(Clone, Copy)]
pub enum Call {
    Format,
    Enrol,
    Backup,
    Collect,
    Read,
    Audit,
}

const KINDS: [Call; 6] = [
    Call::Format,
    Call::Enrol,
    Call::Backup,
    Call::Collect,
    Call::Read,
    Call::Audit,
];

impl fmt::Display for Call {
    fn fmt<W: fmt::Write>(&self, f: &mut fmt::Formatter<W>) -> fmt::Result {
        f.write_str(match self {
            Call::Format => "format",
            Call::Enrol => "enrol",
            Call::Backup => "backup",
            Call::Collect => "collect",
            Call::Read => "read",
            Call::Audit => "audit",
        })
    }
}

// Above the number of any refusal.
const NUMBERS: usize = Refusal::CountWide as usize + 1;

// The calls of one kind, and those of them that each number refused.
#[derive(Clone, Copy)]
struct Answers {
    calls: u32,
    accepted: u32,
    refused: [u32; NUMBERS],
}

#[derive(Clone, Copy)]
pub struct Counts {
    answers: [Answers; KINDS.len()],
    pub taken: u32,
    pub freed: u32,
    pub equal: u32,
    pub sound: u32,
    // Answers other than expected.
    pub wrong: u32,
}

pub fn add(count: &mut u32, n: u16) {
    *count = count.saturating_add(u32::from(n));
}

fn line(rt: &impl Print, call: Call, answers: &Answers) -> io::Result<()> {
    print!(rt;
        "{call} calls {}, accepted {}",
        answers.calls, answers.accepted
    )?;
    for (number, times) in answers.refused.iter().enumerate() {
        if *times != 0 {
            print!(rt; ", refused by {number}: {times}")?;
        }
    }
    println!(rt)
}

impl Counts {
    pub fn new() -> Self {
        let none = Answers {
            calls: 0,
            accepted: 0,
            refused: [0; NUMBERS],
        };
        Counts {
            answers: [none; KINDS.len()],
            taken: 0,
            freed: 0,
            equal: 0,
            sound: 0,
            wrong: 0,
        }
    }

    // A call of a kind was accepted, or refused.
    pub fn call(&mut self, call: Call, refusal: Option<Refusal>) {
        let answers = &mut self.answers[call as usize];
        add(&mut answers.calls, 1);
        match refusal {
            None => add(&mut answers.accepted, 1),
            Some(refusal) => add(&mut answers.refused[refusal as usize], 1),
        }
    }

    pub fn summary(&self, rt: &impl Print) -> io::Result<()> {
        for (call, answers) in KINDS.iter().zip(&self.answers) {
            line(rt, *call, answers)?;
        }
        println!(rt; "blocks taken {}", self.taken)?;
        println!(rt; "blocks freed {}", self.freed)?;
        println!(rt; "blocks read that equal what was sent {}", self.equal)?;
        println!(rt; "audits that say yes {}", self.sound)?;
        println!(rt; "answers other than expected {}", self.wrong)
    }
}
