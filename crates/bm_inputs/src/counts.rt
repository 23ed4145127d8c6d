// What an image has, counted.
ghost use Rattle.std.specs.Prelude.{◌≡◌, ◌≤◌, ◌*◌, length};
ghost use Rattle.bm_inputs.specs.Counts.{tuples_in, masks_in, counts_line};

use bm_base::Piece;
use stream_image::Image;

/// How many tuples the blocks have together.
fn count_tuples(image: &Image) -> u64
    ensures { result ≡ tuples_in image.now }
{
    let mut count = 0;
    for b in 0..image.blocks() {
        count += image.tuples(b).len() as u64;
    }
    count
}

/// How many masks they have together.
fn count_masks(image: &Image) -> u64
    ensures { result ≡ masks_in image.now }
{
    let mut count = 0;
    for b in 0..image.blocks() {
        count += image.masks(b).len() as u64;
    }
    count
}

/// The line of an image's counts.
pub fn image_line(image: &Image) -> Piece
    ensures { result ≡ counts_line image.now }
{
    let mut piece = Piece::new();
    piece.text(b"image blocks ");
    piece.count(u64::from(image.blocks()));
    piece.text(b" tuples ");
    piece.count(count_tuples(image));
    piece.text(b" masks ");
    piece.count(count_masks(image));
    piece.text(b"\n");
    piece
}
