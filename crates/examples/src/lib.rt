//! A few examples of the layers at work, as tests.
#![tactic(auto)]

#[cfg(test)]
mod tests {
    use applications::{Application, RingRegister, SegmentStock};
    use books::{Books, NewRows, Record};
    use committee::{Member, quorum, weigh};
    use format::{Block, Command, ComposeFault, Digest, Height, Identifier, Key, compose};
    use image::Image;
    use seals::{Seals, Secret, Tags};
    use std::test::Fail;

    const NO_DIGEST: [u8; 32] = [0; 32];

    fn ring(argument: i64) -> Command {
        Command::Execute {
            code: 1,
            argument,
            target: Identifier::root(1),
        }
    }

    fn block_at<'a>(height: u16, commands: &'a [Command]) -> Block<'a> {
        Block {
            chain: Identifier::root(2),
            height: Height(height),
            previous: Digest { bytes: NO_DIGEST },
            commands,
        }
    }

    fn member(key: u32) -> Member {
        Member {
            key: Key(key),
            weight: 1,
        }
    }

    #[test]
    fn two_rings_have_82_bytes(rt: HostRuntime) -> Result<(), Fail> {
        let commands = [ring(-12), ring(12)];
        let mut buffer = [0xaa; 83];
        let len = compose(&block_at(0, &commands), &mut buffer)?;
        assert_eq!(rt; len, 82);
        assert_eq!(rt; buffer[43], 2);
        assert_eq!(rt; buffer[44], 4);
        assert_eq!(rt; buffer[53], 0xf4);
        assert_eq!(rt; buffer[82], 0xaa);
        Ok(())
    }

    #[test]
    fn a_refused_block_writes_nothing(rt: HostRuntime) {
        let commands = [ring(0)];
        let mut buffer = [0xaa; 62];
        let fault = compose(&block_at(0, &commands), &mut buffer);
        assert!(rt; fault == Err(ComposeFault::TooShort));
        let fault = compose(&block_at(65_535, &commands), &mut buffer);
        assert!(rt; fault == Err(ComposeFault::OutsideRules));
        assert!(rt; buffer == [0xaa; 62]);
    }

    #[test]
    fn four_equal_members_need_three(rt: HostRuntime) {
        let members = [member(1), member(2), member(3), member(4)];
        assert_eq!(rt; quorum(&members), Some(3));
        assert_eq!(rt; weigh(&members, &[0, 2, 3]), Some(3));
        assert_eq!(rt; weigh(&members, &[0, 2, 2]), None);
        assert_eq!(rt; weigh(&members, &[4]), None);
    }

    #[test]
    fn a_ring_left_of_the_axis_counts_twice(rt: HostRuntime) -> Result<(), Fail> {
        let step = RingRegister::operate(4, 1, 1, -12)?;
        assert_eq!(rt; (step.a, step.b), (5, 2));
        assert_eq!(rt; RingRegister::operate(4, 1, 1, -501).is_err(), true);
        Ok(())
    }

    #[test]
    fn stock_is_not_taken_below_nothing(rt: HostRuntime) -> Result<(), Fail> {
        let step = SegmentStock::receive(7, 0, 2, 7)?;
        assert_eq!(rt; (step.a, step.b), (0, 0));
        assert_eq!(rt; SegmentStock::receive(6, 0, 2, 7).is_err(), true);
        Ok(())
    }

    #[test]
    fn a_tag_is_of_its_key_and_digest(rt: HostRuntime) {
        let book = [Secret {
            key: Key(9),
            secret: [7; 32],
        }];
        let tags = Tags { book: &book };
        let digest = Digest::of(b"block");
        let tag = hash::hmac(&[7; 32], &digest.bytes);
        assert!(rt; tags.verify(Key(9), &digest, &tag));
        assert!(rt; !tags.verify(Key(8), &digest, &tag));
        assert!(rt; !tags.verify(Key(9), &Digest::of(b"other"), &tag));
        assert!(rt; !tags.verify(Key(9), &digest, &tag[0..31]));
    }

    #[test]
    fn an_image_of_three_slots(rt: HostRuntime) {
        let chain = Identifier::root(0x0207);
        let mut memory = [0xaa; 300];
        let mut books = Image::new(&mut memory);
        let went_in = books.put_record(Record {
            identifier: chain,
            owner: Key(0x0a0b_0c0d),
            next: Height(0x0102),
            last: Digest { bytes: [0x11; 32] },
            a: 3,
            b: -2,
            vote: Some(Digest { bytes: [0x22; 32] }),
        });
        assert!(rt; went_in);
        assert!(rt;
            books.fits(
                &chain,
                NewRows {
                    records: 0,
                    marks: 1,
                    outgoing: 1,
                },
            )
        );
        assert!(rt;
            !books.fits(
                &chain,
                NewRows {
                    records: 1,
                    marks: 1,
                    outgoing: 1,
                },
            )
        );
        let bytes = books.into_bytes();
        assert!(rt; bytes.len() == 300);
        assert!(rt; bytes[0..10] == [1, 1, 2, 7, 0, 0, 0, 0, 0, 0]);
        assert!(rt; bytes[10..16] == [0x0a, 0x0b, 0x0c, 0x0d, 1, 2]);
        assert!(rt; bytes[16..48] == [0x11; 32]);
        assert!(rt; bytes[48..56] == [0, 0, 0, 0, 0, 0, 0, 3]);
        assert!(rt; bytes[56..64] == [0xff, 0xff, 0xff, 0xff, 0xff, 0xff, 0xff, 0xfe]);
        assert_eq!(rt; bytes[64], 1);
        assert!(rt; bytes[65..97] == [0x22; 32]);
        assert!(rt; bytes[97..291] == [0; 194]);
        assert!(rt; bytes[291..300] == [0xaa; 9]);
    }
}
