//! What stands for stored references.
ghost use Rattle.std.specs.Prelude.{◌≡◌, ◌≢◌, OnOk, OnErr, IfErr};
ghost use Rattle.uc_base.specs.declared.fault.Fault.TheVariants.{Memory};
ghost use Rattle.uc_base.specs.declared.reference.Ref.{Ref as PlainRef};
ghost use Rattle.uc_tree.specs.Images.{image_of};
ghost use Rattle.uc_tree.specs.declared.ref_map.Image.TheVariants.{Same};

use std::alloc::Global;
use std::collections::BTreeMap;
use std::marker::Model;
use uc_base::{Fault, Ref};

/// What stands for a stored reference: itself, another, or nothing.
#[derive(Clone, Copy, Debug, PartialEq, Eq)]
pub enum Image {
    Same,
    New(Ref),
    Gone,
}

/// The images of stored references. Contracts read it by `image_of`.
#[derive(Drop)]
pub struct RefMap {
    images: BTreeMap<Ref, Image>,
}

impl Model for RefMap {
    ghost use Rattle.uc_tree.specs.Images.{Images};

    ghost Value = { Images };

    ghost view = { λ map. map.images.entries };
}

impl RefMap {
    /// The map in which the image of each reference is `Same`.
    pub fn new(alloc: Global) -> RefMap
        ensures { (r : PlainRef) → image_of result r ≡ Same }
    {
        RefMap {
            images: BTreeMap::new(alloc),
        }
    }

    /// Gives a reference its image, in the place of the one that it had.
    pub fn set(&mut self, of: Ref, image: Image) -> Result<(), Fault>
        ensures set { OnOk result (image_of self.new of ≡ image) }
        ensures others { OnOk result ((r : PlainRef) → r ≢ of → image_of self.new r ≡ image_of self.old r) }
        ensures err { IfErr result (λ fault. fault ≡ Memory) }
        ensures unchanged { OnErr result (self.new ≡ self.old) }
    {
        self.images.insert(of, image)?;
        Ok(())
    }

    pub fn get(&self, of: &Ref) -> Image
        ensures { result ≡ image_of self.now of.now }
    {
        match self.images.get(of) {
            Some(image) => *image,
            None => Image::Same,
        }
    }
}
