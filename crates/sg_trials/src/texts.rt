// Instances from texts.
use sg_model::{Fault, Instance};
use sg_planar::Planar;
use sg_reader::{Rows, read_instance};
use std::alloc::Global;

// The instance that a short text gives.
pub fn instance(alloc: Global, text: &str) -> Result<Instance, Fault> {
    let bytes = text.as_bytes();
    if bytes.len() > 1000 {
        return Err(Fault::NoMemory);
    }
    read_instance(alloc, &mut Rows::new(alloc, bytes))
}

// The same with its faces.
pub fn planar(alloc: Global, text: &str) -> Result<Planar, Fault> {
    let inst = instance(alloc, text)?;
    Planar::test(alloc, inst)
}
