//! Status and sense data: how a command ended, and why.
#![tactic(auto)]

pub mod code;
pub mod key;
mod laws;
mod reader;
mod reply;
mod sense;
mod writer;

pub use laws::one_value;
pub use reader::read_sense;
pub use reply::{Reply, Status};
pub use sense::{Sense, SenseCode};
pub use writer::sense_bytes;

#[cfg(test)]
mod tests {
    use super::*;
    use ct_word::Bytes;

    fn forms() -> [(Sense, bool, &'static [u8]); 5] {
        let outside = code::LBA_OUT_OF_RANGE.sense(None);
        let differs = code::MISCOMPARE_DURING_VERIFY.sense(Some(0x0201));
        let protected = code::WRITE_PROTECTED.sense(None);
        let unready = code::INITIALIZING_COMMAND_REQUIRED.sense(None);
        let unread = code::UNRECOVERED_READ_ERROR.sense(Some(0x1234_5678));
        [
            (
                outside,
                false,
                b"\x70\0\x05\0\0\0\0\x0a\0\0\0\0\x21\0\0\0\0\0",
            ),
            (
                differs,
                false,
                b"\xf0\0\x0e\0\0\x02\x01\x0a\0\0\0\0\x1d\0\0\0\0\0",
            ),
            (protected, true, b"\x72\x07\x27\0\0\0\0\0"),
            (unready, true, b"\x72\x02\x04\x02\0\0\0\0"),
            (
                unread,
                true,
                b"\x72\x03\x11\0\0\0\0\x0c\0\x0a\x80\0\0\0\0\0\x12\x34\x56\x78",
            ),
        ]
    }

    #[test]
    fn writes_each_form(rt: HostRuntime) {
        for (sense, descriptor, bytes) in forms() {
            let mut into = [0xee; 20];
            let size = sense_bytes(&sense, descriptor, &mut into);
            assert_eq!(rt; &into[..size], bytes);
            assert!(rt; into[size..].iter().all(|b| *b == 0xee));
        }
    }

    #[test]
    fn reads_each_form_alone(rt: HostRuntime) {
        for (sense, _, bytes) in forms() {
            assert_eq!(rt; read_sense(bytes), Some(sense), "at {bytes:?}");
        }
        let others: [&[u8]; 12] = [
            b"",
            // 17 and 19 bytes
            b"\x70\0\x05\0\0\0\0\x0a\0\0\0\0\x21\0\0\0\0",
            b"\x70\0\x05\0\0\0\0\x0a\0\0\0\0\x21\0\0\0\0\0\0",
            // another response code, key, length and reserved byte
            b"\x71\0\x05\0\0\0\0\x0a\0\0\0\0\x21\0\0\0\0\0",
            b"\x70\0\x15\0\0\0\0\x0a\0\0\0\0\x21\0\0\0\0\0",
            b"\x70\0\x05\0\0\0\0\x0b\0\0\0\0\x21\0\0\0\0\0",
            b"\x70\0\x05\0\0\0\0\x0a\0\0\0\0\x21\0\0\0\0\x01",
            // INFORMATION that isn't valid
            b"\x70\0\x05\0\0\0\x01\x0a\0\0\0\0\x21\0\0\0\0\0",
            b"\x72\x07\x27\0\0\0\0\x0c",
            b"\x73\x07\x27\0\0\0\0\0",
            b"\x72\x03\x11\0\0\0\0\x0c\0\x0a\0\0\0\0\0\0\x12\x34\x56\x78",
            // INFORMATION of more than four bytes
            b"\x72\x03\x11\0\0\0\0\x0c\0\x0a\x80\0\0\0\0\x01\x12\x34\x56\x78",
        ];
        for bytes in others {
            assert_eq!(rt; read_sense(bytes), None, "at {bytes:?}");
        }
        one_value();
    }

    #[test]
    fn holds_a_reply(rt: HostRuntime) {
        let sense = code::INVALID_FIELD_IN_CDB.sense(None);
        let reply = Reply {
            status: Status::CheckCondition,
            sense: Some(sense),
            descriptor: false,
            body: Bytes::new(rt.alloc()),
        };
        assert_eq!(rt; reply.status, Status::CheckCondition);
        assert_eq!(rt; reply.sense, Some(sense));
        assert!(rt; reply.body.is_empty());
    }
}
