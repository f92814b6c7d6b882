ghost use Rattle.std.specs.Prelude.{◌≡◌, ◌+◌, ◌^◌, ◌<◌, length, slice_index};

use std::alloc::AllocError;
use std::marker::Model;

/// The faces of an instance: a label for each dart, and the number of faces.
#[derive(Drop)]
pub struct Faces {
    labels: Vec<u32>,
    count: u32,
}

impl Model for Faces {
    ghost use Rattle.sg_faces.specs.Faces.{Labelling};

    ghost Value = { Labelling };

    ghost view = { λ f. record { labels = f.labels.items; count = f.count } };
}

impl Faces {
    pub(crate) fn new(labels: Vec<u32>, count: u32) -> Self
        ensures labels { result.labels ≡ labels.items }
        ensures count { result.count ≡ count }
    {
        Faces { labels, count }
    }

    // The same labels, with so many faces more.
    pub(crate) fn with_more(self, faces: u32) -> Self
        requires { self.count + faces < 2 ^ 32 }
        ensures labels { result.labels ≡ self.labels }
        ensures count { result.count ≡ self.count + faces }
    {
        Faces::new(self.labels, self.count + faces)
    }

    /// The number of faces: of orbits of darts, and of spins without a bond. The labels are the numbers
    /// below the number of orbits.
    pub fn count(&self) -> u32
        ensures { result ≡ self.now.count }
    {
        self.count
    }

    /// The face on the side of a dart.
    pub fn of(&self, dart: u32) -> u32
        requires { dart < length self.now.labels }
        ensures { result ≡ slice_index self.now.labels dart }
    {
        self.labels[dart as usize]
    }
}

impl Clone for Faces {
    ghost use Rattle.std.specs.Prelude.{◌≡◌};

    ghost is_clone = { λ faces copy. copy ≡ faces };

    fn clone(&self) -> Result<Faces, AllocError> {
        let labels = self.labels.clone()?;
        Ok(Faces {
            labels,
            count: self.count,
        })
    }
}
