ghost use Rattle.std.specs.Prelude.{◌≡◌, map};
ghost use Rattle.spec_place.specs.Chains.{chain_frame, relative_frame, rests, frames_of, relative_frame_of};
ghost use Rattle.spec_place.specs.Frames.{next, frame_inverse, frame_then};

use crate::types::Frame;
use spec_place::PlaceFault;

/// The frame of a chain of placements with their numbers.
fn chain_of_links(links: &[(u64, Frame)]) -> Result<Frame, PlaceFault>
    ensures { result ≡ chain_frame (frames_of links.now) }
{
    let [first, rest @ ..] = links else {
        return Ok(Frame::identity());
    };
    let mut frame = first.1;
    for link in rest {
        frame = frame.then(&link.1)?;
    }
    Ok(frame)
}

/// Two chains without the placements that they share at their front.
fn rests<'a>(
    element: &'a [(u64, Frame)],
    opening: &'a [(u64, Frame)],
) -> (&'a [(u64, Frame)], &'a [(u64, Frame)])
    ensures element { result.0.now ≡ (rests element.now opening.now).0 }
    ensures opening { result.1.now ≡ (rests element.now opening.now).1 }
{
    let mut shared = 0;
    'front: while shared < element.len()
        && shared < opening.len()
        && element[shared].0 == opening[shared].0
    {
        shared += 1;
    }
    (&element[shared..], &opening[shared..])
}

/// One frame as seen from another.
fn seen_from(from: &Frame, frame: &Frame) -> Result<Frame, PlaceFault>
    ensures { result ≡ next (frame_inverse from.now) (λ back. frame_then back frame.now) }
{
    from.inverse()?.then(frame)
}

impl Frame {
    /// The frame of a chain of placements, from the root (IfcLocalPlacement): the first frame, then the
    /// second, and so on. That of an empty chain is the frame of the world.
    ///
    /// # Errors
    ///
    /// `OffsetTooLarge` exactly where an offset on the way has a part of a size above 10^16 nanometres.
    pub fn of_chain(frames: &[Frame]) -> Result<Frame, PlaceFault>
        ensures { result ≡ chain_frame frames.now }
    {
        let [first, rest @ ..] = frames else {
            return Ok(Frame::identity());
        };
        let mut frame = *first;
        for next in rest {
            frame = frame.then(next)?;
        }
        Ok(frame)
    }

    /// The frame of an opening's chain of placements as seen from that of its element's chain, where
    /// both are without the placements that they share at their front.
    ///
    /// # Errors
    ///
    /// `OffsetTooLarge` exactly where an offset on the way has a part of a size above 10^16 nanometres.
    pub fn relative(element: &[Frame], opening: &[Frame]) -> Result<Frame, PlaceFault>
        ensures { result ≡ relative_frame element.now opening.now }
    {
        let back = Frame::of_chain(element)?.inverse()?;
        back.then(&Frame::of_chain(opening)?)
    }

    /// The same for whole chains, whose placements are known by the numbers of their instances: those
    /// that both chains share at their front are dropped first.
    ///
    /// # Errors
    ///
    /// As `relative`.
    pub fn relative_of_chains(
        element: &[(u64, Frame)],
        opening: &[(u64, Frame)],
    ) -> Result<Frame, PlaceFault>
        ensures { result ≡ relative_frame_of element.now opening.now }
    {
        let (element, opening) = rests(element, opening);
        let back = chain_of_links(element)?.inverse()?;
        back.then(&chain_of_links(opening)?)
    }
}
