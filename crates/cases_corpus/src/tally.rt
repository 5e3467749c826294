// How many cases agree, how many differ, and which is the first that does.
use std::io;

#[derive(Clone, Copy, Default)]
pub struct Score {
    agree: u32,
    differ: u32,
    // The number of the first case that differs, from 1.
    first: Option<u32>,
}

impl Score {
    // With one case more.
    pub fn counted(self, agrees: bool) -> Score {
        if agrees {
            return Score {
                agree: self.agree.wrapping_add(1),
                ..self
            };
        }
        Score {
            agree: self.agree,
            differ: self.differ.wrapping_add(1),
            first: self.first.or(Some(self.agree.wrapping_add(1))),
        }
    }

    pub fn shown(self, rt: &impl Print) -> io::Result<()> {
        print!(rt; "{} agree, {} differ", self.agree, self.differ)?;
        if let Some(first) = self.first {
            print!(rt; ", the first is case {first}")?;
        }
        println!(rt; "")
    }
}
