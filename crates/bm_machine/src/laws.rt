// What the engine asks of an image.
ghost use Rattle.unit_law.specs.Sound.{IsSound};
ghost use Rattle.unit_law.specs.Fit.{HasTimes};
ghost use Rattle.unit_law.specs.Determinate.{RespectsConflicts};

use stream_image::Image;

/// Every image is sound and has lawful times, and each tuple starts once its producers have finished.
/// It is for proofs, and does nothing.
pub(crate) fn image_laws(image: &Image)
    ensures sound { IsSound image.now }
    ensures times { HasTimes image.now }
    ensures producers { RespectsConflicts image.now }
{
    let _blocks = image.blocks();
}
