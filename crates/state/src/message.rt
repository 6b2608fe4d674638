//! Messages: eight bytes from an airline, an airport or a crew.
ghost use Rattle.std.specs.Prelude.{◌≡◌};
ghost use Rattle.state.specs.Messages.{decoded, message_of, sender_of, sender_code};

use crate::refusal::Refusal;

/// What a message asks for.
#[derive(Clone, Copy, PartialEq, Eq, Debug)]
pub enum Message {
    /// register `register` gets a pointer to a new block of `size` words in area `area`
    Make { register: u8, area: u8, size: u32 },
    /// word `word` of the block in register `to` becomes what register `from` holds
    Write { to: u8, word: u8, from: u32 },
    /// register `register` becomes the number `value`
    Number { register: u8, value: u32 },
    /// register `to` becomes word `word` of the block in register `from`
    Read { to: u8, from: u8, word: u32 },
    /// register `to` becomes what register `from` holds
    Copy { to: u8, from: u8 },
    /// one turn of area `area`
    Turn { area: u8 },
}

// Who sends a message.
#[derive(Clone, Copy, PartialEq, Eq, Debug)]
enum Sender {
    Airline,
    Airport,
    Crew,
}

impl TryFrom<u8> for Sender {
    type Error = Refusal;

    ghost try_from_gives = { λ code result. result ≡ sender_of code };

    fn try_from(code: u8) -> Result<Sender, Refusal> {
        match code {
            1 => Ok(Sender::Airline),
            2 => Ok(Sender::Airport),
            3 => Ok(Sender::Crew),
            _ => Err(Refusal::Malformed),
        }
    }
}

impl Message {
    // A message by its fields; a field that it does not use must be 0.
    fn of_fields(sender: Sender, letter: u8, p: u8, q: u8, n: u32) -> Result<Message, Refusal>
        ensures { result ≡ message_of (sender_code sender) letter p q n }
    {
        match (sender, letter, p, q, n) {
            (Sender::Airline, b'M', register, area, size) => Ok(Message::Make {
                register,
                area,
                size,
            }),
            (Sender::Airline, b'W', to, word, from) => Ok(Message::Write { to, word, from }),
            (Sender::Airline, b'N', register, 0, value) => Ok(Message::Number { register, value }),
            (Sender::Crew, b'R', to, from, word) => Ok(Message::Read { to, from, word }),
            (Sender::Crew, b'C', to, from, 0) => Ok(Message::Copy { to, from }),
            (Sender::Airport, b'T', 0, area, 0) => Ok(Message::Turn { area }),
            _ => Err(Refusal::Malformed),
        }
    }

    /// The message that eight bytes are: sender, letter, p, q and a four-byte number, its low byte first.
    // callers have it by this name; a `TryFrom` would only be a second one
    pub fn decode(bytes: &[u8]) -> Result<Message, Refusal>
        ensures { result ≡ decoded bytes.now }
    {
        let &[sender, letter, p, q, n0, n1, n2, n3] = bytes else {
            return Err(Refusal::Malformed);
        };
        let n = u32::from_le_bytes([n0, n1, n2, n3]);
        Message::of_fields(Sender::try_from(sender)?, letter, p, q, n)
    }
}
