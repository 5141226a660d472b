// Where a log breaks a rule of turns. The verdict is the library's; what is found here is its place and its reason.
use std::fmt;

// A rule of turns that a log can break.
#[derive(Clone, Copy)]
pub enum Rule {
    NoTurn,
    BeforeMarks,
    NotListed,
    SecondTurn,
    SixthPoll,
    OutsideTurn,
    FifthAck,
}

// The rule that is broken, and the slot whose turn or mark it is.
#[derive(Clone, Copy)]
pub struct Broken {
    slot: usize,
    rule: Rule,
}

impl fmt::Display for Rule {
    fn fmt<W: fmt::Write>(&self, f: &mut fmt::Formatter<W>) -> fmt::Result {
        f.write_str(match self {
            Rule::NoTurn => "has had no turn before this mark",
            Rule::BeforeMarks => "is polled before the first mark",
            Rule::NotListed => "is polled and not on the list",
            Rule::SecondTurn => "begins a second turn",
            Rule::SixthPoll => "is polled a sixth time in its turn",
            Rule::OutsideTurn => "is acknowledged outside a turn",
            Rule::FifthAck => "is acknowledged a fifth time in its turn",
        })
    }
}

impl fmt::Display for Broken {
    fn fmt<W: fmt::Write>(&self, f: &mut fmt::Formatter<W>) -> fmt::Result {
        let Broken { slot, rule } = *self;
        write!(f, "slot {slot} {rule}")
    }
}

// The turn that runs: its polls and its acknowledgements.
#[derive(Clone, Copy)]
struct Turn {
    slot: usize,
    polls: u32,
    acks: u32,
}

// What follows a mark: words of its list to come, the slots listed, and those of them that have had no turn.
#[derive(Clone, Copy)]
struct Round {
    left: u32,
    listed: u64,
    due: u64,
}

impl Round {
    fn list(self, slot: usize) -> Round {
        Round {
            left: self.left.saturating_sub(1),
            listed: bits::with(self.listed, slot),
            due: bits::with(self.due, slot),
        }
    }
}

// While the words are read.
#[derive(Clone, Copy)]
struct Watch {
    round: Option<Round>,
    turn: Option<Turn>,
}

impl Watch {
    // A mark: each slot of the last list has had its turn.
    fn mark(&mut self, left: u32) -> Result<(), Broken> {
        if let Some(round) = self.round {
            no_turn_due(round.due)?;
        }
        self.round = Some(Round {
            left,
            listed: 0,
            due: 0,
        });
        self.turn = None;
        Ok(())
    }

    fn turn_of(&self, slot: usize) -> Option<Turn> {
        self.turn.filter(|turn| turn.slot == slot)
    }

    // A poll that begins a turn.
    fn begin(&mut self, slot: usize) -> Result<(), Rule> {
        let Some(round) = self.round else {
            return Err(Rule::BeforeMarks);
        };
        if !bits::has(round.listed, slot) {
            return Err(Rule::NotListed);
        }
        if !bits::has(round.due, slot) {
            return Err(Rule::SecondTurn);
        }
        self.round = Some(Round {
            due: bits::without(round.due, slot),
            ..round
        });
        self.turn = Some(Turn {
            slot,
            polls: 1,
            acks: 0,
        });
        Ok(())
    }

    fn poll(&mut self, slot: usize) -> Result<(), Rule> {
        let Some(turn) = self.turn_of(slot) else {
            return self.begin(slot);
        };
        if 4 < turn.polls {
            return Err(Rule::SixthPoll);
        }
        self.turn = Some(Turn {
            polls: turn.polls + 1,
            ..turn
        });
        Ok(())
    }

    fn ack(&mut self, slot: usize, ends: bool) -> Result<(), Rule> {
        let turn = self.turn_of(slot).ok_or(Rule::OutsideTurn)?;
        if 3 < turn.acks {
            return Err(Rule::FifthAck);
        }
        self.turn = if ends {
            None
        } else {
            Some(Turn {
                acks: turn.acks + 1,
                ..turn
            })
        };
        Ok(())
    }

    // A sending, by its head.
    fn sending(&mut self, word: u32) -> Result<(), Broken> {
        let head = words::head_of(word);
        if head.code != wire::TINY {
            return Ok(());
        }
        let slot = (head.extra % 64) as usize;
        let kept = match head.hi {
            wire::K_POLL | wire::K_RELAY => self.poll(slot),
            wire::K_POLLACK => self.ack(slot, false),
            wire::K_ACK => self.ack(slot, true),
            _ => Ok(()),
        };
        kept.map_err(|rule| Broken { slot, rule })
    }

    fn word(&mut self, word: u32) -> Result<(), Broken> {
        if let Some(round) = self.round.filter(|round| 0 < round.left) {
            self.round = Some(round.list((word % 64) as usize));
            return Ok(());
        }
        match word >> 28 {
            6 => self.mark(word % 64),
            8 => self.sending(word),
            _ => Ok(()),
        }
    }
}

fn no_turn_due(due: u64) -> Result<(), Broken> {
    match bits::lowest(due) {
        Some(slot) => Err(Broken {
            slot,
            rule: Rule::NoTurn,
        }),
        None => Ok(()),
    }
}

// The first sending or mark that breaks a rule of turns, and its place.
pub fn first_broken(words: &[u32]) -> Option<(usize, Broken)> {
    let mut watch = Watch {
        round: None,
        turn: None,
    };
    for (place, word) in words.iter().enumerate() {
        if let Err(broken) = watch.word(*word) {
            return Some((place, broken));
        }
    }
    None
}
