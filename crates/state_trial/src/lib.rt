//! Trials of the memory's types: messages, registers and holds.
#![tactic(auto)]

ghost use Rattle.std.specs.Prelude.{◌≡◌};

#[cfg(test)]
mod tests {
    use state::{Block, Colour, Hold, Message, Refusal, Registers, Word};
    use std::test::Fail;

    // One message of each kind, and sizes that a memory refuses but a message can have.
    const MESSAGES: [([u8; 8], Message); 8] = [
        (
            *b"\x01M\x0f\x02\x08\0\0\0",
            Message::Make {
                register: 15,
                area: 2,
                size: 8,
            },
        ),
        (
            *b"\x01M\0\x02\x09\0\0\0",
            Message::Make {
                register: 0,
                area: 2,
                size: 9,
            },
        ),
        (
            *b"\x01M\0\x02\x04\x03\x02\x01",
            Message::Make {
                register: 0,
                area: 2,
                size: 0x0102_0304,
            },
        ),
        (
            *b"\x01W\x01\x02\x03\0\0\0",
            Message::Write {
                to: 1,
                word: 2,
                from: 3,
            },
        ),
        (
            *b"\x01N\x05\0\xff\xff\xff\xff",
            Message::Number {
                register: 5,
                value: u32::MAX,
            },
        ),
        (
            *b"\x03R\x01\x02\x03\0\0\0",
            Message::Read {
                to: 1,
                from: 2,
                word: 3,
            },
        ),
        (*b"\x03C\x01\x02\0\0\0\0", Message::Copy { to: 1, from: 2 }),
        (*b"\x02T\0\x03\0\0\0\0", Message::Turn { area: 3 }),
    ];

    // A wrong sender of each kind, a wrong letter, an unused field that is not 0, and a byte too few or too many.
    const MALFORMED: [&[u8]; 14] = [
        b"\x02M\0\x02\x01\0\0\0",
        b"\x03W\x01\x02\x03\0\0\0",
        b"\0N\x05\0\0\0\0\0",
        b"\x01R\x01\x02\x03\0\0\0",
        b"\x02C\x01\x02\0\0\0\0",
        b"\x01T\0\x03\0\0\0\0",
        b"\x01m\0\x02\x01\0\0\0",
        b"\x01N\x05\x01\0\0\0\0",
        b"\x03C\x01\x02\0\0\0\x01",
        b"\x02T\x01\x03\0\0\0\0",
        b"\x02T\0\x03\x01\0\0\0",
        b"\x02T\0\x03\0\0\0",
        b"\x02T\0\x03\0\0\0\0\0",
        b"",
    ];

    #[test]
    fn messages(rt: HostRuntime) {
        for (bytes, message) in MESSAGES {
            assert_eq!(rt; Message::decode(&bytes), Ok(message));
        }
        for bytes in MALFORMED {
            assert_eq!(rt; Message::decode(bytes), Err(Refusal::Malformed));
        }
        assert_eq!(rt; Refusal::Malformed.number(), 6);
    }

    #[test]
    fn registers(rt: HostRuntime) {
        let mut registers = Registers::new();
        assert_eq!(rt; registers.get(15), Ok(Word::Number(0)));
        assert_eq!(rt; registers.read(15, Word::Pointer(7)), Ok(()));
        assert_eq!(rt; registers.copy(0, 15), Ok(()));
        assert_eq!(rt; registers.number(15, 9), Ok(()));
        assert_eq!(rt; registers.get(0), Ok(Word::Pointer(7)));
        assert_eq!(rt; registers.get(15), Ok(Word::Number(9)));
        assert_eq!(rt; registers.get(16), Err(Refusal::NoRegister));
        assert_eq!(rt;
            registers.read(16, Word::Number(1)),
            Err(Refusal::NoRegister)
        );
        assert_eq!(rt; registers.number(16, 1), Err(Refusal::NoRegister));
        assert_eq!(rt; registers.copy(16, 0), Err(Refusal::NoRegister));
        assert_eq!(rt; registers.copy(0, 16), Err(Refusal::NoRegister));
        assert_eq!(rt; registers.get(0), Ok(Word::Pointer(7)));
    }

    // A block with so many holds.
    fn block_with(holds: u8) -> Block
        ensures { result.holds ≡ holds }
    {
        Block {
            size: 0,
            words: [Word::Number(0); 8],
            colour: Colour::Grey,
            entries: [None; 3],
            holds,
        }
    }

    // Spends a hold, on a block that has one.
    fn spend(hold: Hold) {
        let mut block = block_with(1);
        match block.give_back(hold) {
            Ok(()) => {}
            Err(_) => unreachable(),
        }
    }

    #[test]
    fn the_last_hold(rt: HostRuntime) -> Result<(), Fail> {
        let mut block = block_with(254);
        let Ok(hold) = block.hold(3) else {
            return Err(Fail::new("the 255th hold is refused"));
        };
        let held = hold.block();
        spend(hold);
        assert_eq!(rt; (held, block.holds), (3, 255));
        match block.hold(3) {
            Ok(hold) => {
                spend(hold);
                Err(Fail::new("the 256th hold is given"))
            }
            Err(refusal) => {
                assert_eq!(rt; (refusal, block.holds), (Refusal::TooManyHolds, 255));
                Ok(())
            },
        }
    }

    #[test]
    fn a_hold_comes_back(rt: HostRuntime) -> Result<(), Fail> {
        let mut block = block_with(0);
        let Ok(hold) = block.hold(3) else {
            return Err(Fail::new("the first hold is refused"));
        };
        let mut other = block_with(0);
        match other.give_back(hold) {
            Ok(()) => Err(Fail::new("a block without a hold takes one back")),
            Err((refusal, hold)) => {
                let held = hold.block();
                spend(hold);
                assert_eq!(rt; (refusal, held, other.holds), (Refusal::NoHold, 3, 0));
                Ok(())
            }
        }
    }
}
