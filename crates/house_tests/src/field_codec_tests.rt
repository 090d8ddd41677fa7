use crate::checks::holds;
use field_codec::{FieldFault, Fields, Table, put_slice, put_u8, put_u16, put_u32};
use locus_ids::Bytes;

// The live entry `a` with inode 2: name, inode, kind and count of a directory entry.
const ENTRY: [u8; 9] = [1, 0x61, 0, 2, 1, 0, 0, 0, 1];

#[test]
fn an_entry_is_read(rt: HostRuntime) {
    let mut fields = Fields::new(&ENTRY);
    let name_length = fields.u8_in(1, 60).expect(&rt, "a fault");
    holds(
        &rt,
        fields.slice(name_length as u32).expect(&rt, "a fault") == b"a".as_slice(),
    );
    holds(&rt, fields.u16_in(1, 1024).expect(&rt, "a fault") == 2);
    holds(&rt, fields.get_u8().expect(&rt, "a fault") == 1);
    holds(&rt, fields.left() == 4);
    fields.zeros(3).expect(&rt, "a fault");
    fields.exactly(&[1]).expect(&rt, "a fault");
    holds(&rt, fields.at() == 9);
    fields.end().expect(&rt, "a fault");
}

#[test]
fn an_entry_is_written(rt: HostRuntime) {
    let mut out = Bytes::new(rt.alloc());
    put_u8(&mut out, 1).expect(&rt, "no memory");
    put_slice(&mut out, b"a").expect(&rt, "no memory");
    put_u16(&mut out, 2).expect(&rt, "no memory");
    put_u8(&mut out, 1).expect(&rt, "no memory");
    put_u32(&mut out, 1).expect(&rt, "no memory");
    holds(&rt, out.as_slice() == ENTRY.as_slice());
    let widths = Table {
        widths: [1, 1, 2, 1, 4],
    };
    holds(&rt, widths.width() == 9);
}

#[test]
fn faults_name_their_places(rt: HostRuntime) {
    let mut fields = Fields::new(&ENTRY);
    holds(&rt, fields.u16_in(1, 9) == Err(FieldFault::Range { at: 0 }));
    holds(&rt, fields.get_u32().expect(&rt, "a fault") == 0x0161_0002);
    holds(&rt, fields.u8_in(2, 2) == Err(FieldFault::Range { at: 4 }));
    holds(&rt, fields.zeros(2) == Err(FieldFault::Range { at: 4 }));
    holds(&rt, fields.slice(6) == Err(FieldFault::Short { at: 4 }));
    holds(&rt, fields.u32_in(0, 9) == Err(FieldFault::Range { at: 4 }));
    holds(&rt, fields.get_u16().expect(&rt, "a fault") == 256);
    holds(&rt, fields.get_u32() == Err(FieldFault::Short { at: 6 }));
    holds(&rt, fields.end() == Err(FieldFault::Range { at: 6 }));
}
