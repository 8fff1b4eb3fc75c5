//! Settings that are numbers. Each has its range as a fact of its type.

ghost use Rattle.std.specs.Prelude.{◌≡◌, ◌≤◌};
ghost use Rattle.local_ops.specs.Reading.{number_in};
ghost use Rattle.config.specs.Settings.{number_between, port_in, seconds_in, workers_in, connections_in};

use itoa::Buffer;
use std::marker::Model;

/// A number without sign or leading zeros.
fn read_number(text: &str) -> Option<u64>
    ensures { result ≡ number_in text.now }
{
    let Ok(number) = text.parse::<u64>() else {
        return None;
    };
    // It has one text, the one that it is printed in.
    if Buffer::new().format(number) == text {
        Some(number)
    } else {
        None
    }
}

/// The same, from `least` to `most`.
fn read_between(text: &str, least: u64, most: u64) -> Option<u64>
    ensures { result ≡ number_between least most text.now }
{
    match read_number(text) {
        Some(number) if least <= number && number <= most => Some(number),
        _ => None,
    }
}

/// A port of TCP or UDP, 1 to 65,535.
#[derive(Clone, Copy, Debug, PartialEq, Eq)]
pub struct Port {
    number: u16,
}

impl Model for Port {
    ghost use Rattle.std.specs.Prelude.{ℕ, ◌≤◌};

    ghost Value = { ℕ };

    ghost view = { λ p. p.number };

    ghost invariant = { λ p. 1 ≤ p.number };

    ghost inverse = { λ n. record { number = n } };
}

impl Port {
    /// Reads a port in decimal, without sign or leading zeros. None where it is no port.
    pub fn read(text: &str) -> Option<Port>
        ensures { result ≡ port_in text.now }
    {
        match read_between(text, 1, 65_535) {
            Some(number) => Some(Port {
                number: number as u16,
            }),
            None => None,
        }
    }

    pub fn get(self) -> u16
        ensures value { result ≡ self }
        ensures least { 1 ≤ result }
    {
        self.number
    }
}

/// A time of 1 to 86,400 seconds, a day.
#[derive(Clone, Copy, Debug, PartialEq, Eq)]
pub struct Seconds {
    number: u32,
}

impl Model for Seconds {
    ghost use Rattle.std.specs.Prelude.{ℕ, ◌≤◌};

    ghost Value = { ℕ };

    ghost view = { λ s. s.number };

    ghost invariant = { λ s. (1 ≤ s.number) × (s.number ≤ 86400) };

    ghost inverse = { λ n. record { number = n } };
}

impl Seconds {
    /// Reads a time in decimal, without sign or leading zeros. None where it is none.
    pub fn read(text: &str) -> Option<Seconds>
        ensures { result ≡ seconds_in text.now }
    {
        match read_between(text, 1, 86_400) {
            Some(number) => Some(Seconds {
                number: number as u32,
            }),
            None => None,
        }
    }

    pub fn get(self) -> u32
        ensures value { result ≡ self }
        ensures least { 1 ≤ result }
        ensures most { result ≤ 86400 }
    {
        self.number
    }
}

/// How many workers serve: 1 to 16.
#[derive(Clone, Copy, Debug, PartialEq, Eq)]
pub struct Workers {
    number: u32,
}

impl Model for Workers {
    ghost use Rattle.std.specs.Prelude.{ℕ, ◌≤◌};

    ghost Value = { ℕ };

    ghost view = { λ w. w.number };

    ghost invariant = { λ w. (1 ≤ w.number) × (w.number ≤ 16) };

    ghost inverse = { λ n. record { number = n } };
}

impl Workers {
    /// Reads a number of workers in decimal, without sign or leading zeros. None where it is none.
    pub fn read(text: &str) -> Option<Workers>
        ensures { result ≡ workers_in text.now }
    {
        match read_between(text, 1, 16) {
            Some(number) => Some(Workers {
                number: number as u32,
            }),
            None => None,
        }
    }

    pub fn get(self) -> u32
        ensures value { result ≡ self }
        ensures least { 1 ≤ result }
        ensures most { result ≤ 16 }
    {
        self.number
    }
}

/// How many connections may be open: 1 to 4,096.
#[derive(Clone, Copy, Debug, PartialEq, Eq)]
pub struct Connections {
    number: u16,
}

impl Model for Connections {
    ghost use Rattle.std.specs.Prelude.{ℕ, ◌≤◌};

    ghost Value = { ℕ };

    ghost view = { λ c. c.number };

    ghost invariant = { λ c. (1 ≤ c.number) × (c.number ≤ 4096) };

    ghost inverse = { λ n. record { number = n } };
}

impl Connections {
    /// Reads a number of connections in decimal, without sign or leading zeros. None where it is none.
    pub fn read(text: &str) -> Option<Connections>
        ensures { result ≡ connections_in text.now }
    {
        match read_between(text, 1, 4_096) {
            Some(number) => Some(Connections {
                number: number as u16,
            }),
            None => None,
        }
    }

    pub fn get(self) -> u16
        ensures value { result ≡ self }
        ensures least { 1 ≤ result }
        ensures most { result ≤ 4096 }
    {
        self.number
    }
}
