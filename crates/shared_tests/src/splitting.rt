//! A memory that is split and united.

use block_objects::MemoryLimits;
use rw_objects::ObjectSpace;
use shared_parts::Striped;
use std::test::Fail;
use striped_memory::StripedMemory;
use waiter_queues::SharedSpace;
use wasm_types::{Block, Data, Items, Value};

/// The bytes of a segment over the border of two blocks come back, and nothing else is there.
#[test]
fn a_memory_comes_back_from_its_parts(rt: HostRuntime) -> Result<(), Fail> {
    let alloc = rt.alloc();
    let limits = MemoryLimits {
        initial: 1,
        capacity: 2,
        block: Block::least(),
    };
    let segments = [Data {
        memory: 0,
        offset: Value::I32(62),
        bytes: Items::from_vec(vec![in alloc; 4u8; 4]?),
    }];
    let space = SharedSpace::new(alloc, limits, &segments)?;
    let memory = StripedMemory { space };
    let parts = memory.split(alloc)?;
    let memory = StripedMemory::unite(alloc, parts)?;
    let image = memory.image(alloc)?;
    assert_eq!(rt; image.len(), 65_536);
    assert_eq!(rt; &image[60..68], [0, 0, 4, 4, 4, 4, 0, 0].as_slice());
    assert_eq!(rt; image.iter().filter(|byte| **byte != 0).count(), 4);
    assert_eq!(rt; memory.objects(), 4097);
    Ok(())
}
