//! A case: the options of a session, what the client sends, and what it is to get; or a script, and what it is to write.

use maildrop::Op;
use server::LoneOptions;
use std::alloc::{AllocError, Global};

/// A place where the client waits for replies before it sends more.
#[derive(Drop)]
pub struct Turn {
    /// How many bytes it has sent.
    pub sent: usize,
    /// How many bytes of replies it awaits.
    pub wanted: usize,
    /// What others do to the maildrop then.
    pub meanwhile: Option<Op>,
}

/// What the session is served with.
#[derive(Drop)]
pub struct Settings {
    pub user: Vec<u8>,
    pub method: Vec<u8>,
    pub secret: Vec<u8>,
    pub nonce: Vec<u8>,
    pub host: Vec<u8>,
    /// The mailbox file.
    pub mbox: Option<Vec<u8>>,
}

#[derive(Drop)]
pub struct Case {
    pub name: String,
    pub settings: Settings,
    /// Whether what is sent is a script, and not what the client of a lone session says.
    pub is_script: bool,
    /// What the client sends.
    pub sent: Vec<u8>,
    /// Where it waits, in order.
    pub turns: Vec<Turn>,
    /// What it is to get.
    pub wanted: Vec<u8>,
    /// With what the lines begin that count, if not all do.
    pub only: Option<Vec<u8>>,
    /// The exit status that is wanted.
    pub status: u8,
    /// What is to be told on standard error.
    pub told: Vec<u8>,
    /// The unique ids that are to be left in a free maildrop, if the case says so.
    pub left: Option<String>,
}

impl Settings {
    /// The settings if a case doesn't say others.
    fn new(alloc: Global) -> Result<Settings, AllocError> {
        Ok(Settings {
            user: b"alice".to_vec(alloc)?,
            method: b"pass".to_vec(alloc)?,
            secret: b"s".to_vec(alloc)?,
            nonce: b"1.1".to_vec(alloc)?,
            host: b"localhost".to_vec(alloc)?,
            mbox: None,
        })
    }

    pub fn options(&self) -> LoneOptions<'_> {
        LoneOptions {
            user: self.user.as_slice(),
            method: self.method.as_slice(),
            secret: self.secret.as_slice(),
            nonce: self.nonce.as_slice(),
            host: self.host.as_slice(),
            mbox: match &self.mbox {
                None => None,
                Some(mbox) => Some(mbox.as_slice()),
            },
        }
    }
}

impl Case {
    /// A case in which nothing is sent.
    pub fn new(alloc: Global, name: &str) -> Result<Case, AllocError> {
        Ok(Case {
            name: name.to_string(alloc)?,
            settings: Settings::new(alloc)?,
            is_script: false,
            sent: Vec::new(alloc),
            turns: Vec::new(alloc),
            wanted: Vec::new(alloc),
            only: None,
            status: 0,
            told: Vec::new(alloc),
            left: None,
        })
    }

    /// Whether it wants something that one session over a desk can't tell.
    pub fn wants_a_run(&self) -> bool {
        self.status != 0 || !self.told.is_empty() || self.settings.mbox.is_some()
    }

    /// Whether others than the session come to its maildrop.
    pub fn is_shared(&self) -> bool {
        self.left.is_some() || self.turns.iter().any(|turn| turn.meanwhile.is_some())
    }
}
