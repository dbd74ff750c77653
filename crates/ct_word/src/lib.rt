//! The lowest layer: the names, numbers and bytes that every other crate speaks of.
#![tactic(auto)]

mod block;
mod bytes;
mod decimals;
mod fields;
mod laws;
pub mod limit;
mod names;
mod nexus_set;
mod reserve;

pub use block::Block;
pub use bytes::Bytes;
pub use decimals::read_decimal;
pub use fields::{u16_at, u32_at, u64_at};
pub use laws::one_numeral;
pub use names::{CmdNo, Code, Failed, Ha, LunNo, Nexus, NoMemory, Node, Room, Tag};
pub use nexus_set::NexusSet;
pub use reserve::Reserve;

#[cfg(test)]
mod tests {
    use super::*;
    use std::test::Fail;

    #[test]
    fn reads_decimals(rt: HostRuntime) {
        let cases: [(&str, Option<u64>); 11] = [
            ("", None),
            ("0", Some(0)),
            ("7", Some(7)),
            ("007", None),
            ("00", None),
            ("65536", Some(65_536)),
            ("+1", None),
            ("-1", None),
            ("1x", None),
            ("18446744073709551615", Some(u64::MAX)),
            ("99999999999999999999999", Some(u64::MAX)),
        ];
        for (word, number) in cases {
            assert_eq!(rt; read_decimal(word.as_bytes()), number, "at {word}");
        }
    }

    #[test]
    fn reads_fields(rt: HostRuntime) {
        let bytes = [0, 1, 2, 3, 4, 5, 6, 7, 8];
        assert_eq!(rt; u16_at(&bytes, 1), 0x0102);
        assert_eq!(rt; u32_at(&bytes, 2), 0x0203_0405);
        assert_eq!(rt; u64_at(&bytes, 1), 0x0102_0304_0506_0708);
    }

    #[test]
    fn holds_nexuses(rt: HostRuntime) {
        let last = Nexus { port: 15, init: 15 };
        let other = Nexus { port: 15, init: 14 };
        assert!(rt; last.is_same(last) && !last.is_same(other));
        let mut set = NexusSet::open();
        assert!(rt; !set.has(last));
        set.add(last);
        assert!(rt; set.has(last) && !set.has(other));
        assert_eq!(rt; CmdNo::new(7).number(), 7);
    }

    #[test]
    fn holds_bytes(rt: HostRuntime) -> Result<(), Fail> {
        let alloc = rt.alloc();
        let bytes = Bytes::from_vec([1, 2].to_vec(alloc)?);
        assert_eq!(rt; bytes.as_slice(), [1, 2].as_slice());
        assert_eq!(rt; bytes.len(), 2);
        assert!(rt; Bytes::new(alloc).is_empty());
        let mut block = Block::zeros(alloc)?;
        assert_eq!(rt; block.bytes()[511], 0);
        block.fill(&[7; 512]);
        assert_eq!(rt; block.bytes()[511], 7);
        block.bytes_mut()[0] = 8;
        assert_eq!(rt; (block.bytes()[0], block.bytes()[1]), (8, 7));
        one_numeral();
        Ok(())
    }

    #[test]
    fn fills_reserved_room(rt: HostRuntime) -> Result<(), Fail> {
        let alloc = rt.alloc();
        let mut list = Reserve::open(alloc, 3)?;
        assert_eq!(rt; list.pop(), None);
        for item in [10u32, 20, 30] {
            assert!(rt; list.room() > 0);
            list.push(item);
        }
        assert_eq!(rt; list.room(), 0);
        assert!(rt; list.len() == 3);
        *list.item_mut(0) = 11;
        list.set(1, 21);
        assert_eq!(rt; list.replace(2, 31), 30);
        assert_eq!(rt; list.as_slice(), [11, 21, 31].as_slice());
        assert_eq!(rt; list.remove(0), 11);
        list.insert(0, 12);
        assert_eq!(rt; list.as_slice(), [12, 21, 31].as_slice());
        assert_eq!(rt; list.remove(0), 12);
        assert_eq!(rt; list.get(0), Some(&21));
        assert_eq!(rt; list.get(2), None);
        assert_eq!(rt; list.pop(), Some(31));
        assert_eq!(rt; (list.len(), list.room()), (1, 2));
        assert!(rt; !list.is_empty());

        let mut bytes = Reserve::open(alloc, 4)?;
        bytes.append(&[1, 2, 3]);
        assert_eq!(rt; bytes.into_bytes().as_slice(), [1, 2, 3].as_slice());
        let mut bytes = Reserve::open(alloc, 1)?;
        bytes.push(9);
        assert!(rt; bytes.into_empty().is_empty());
        Ok(())
    }
}
