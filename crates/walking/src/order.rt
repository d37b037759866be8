// Which half is taken first, and the boxes of each: the far half first, or the near one.
ghost use Rattle.std.specs.Prelude.{◌≡◌, ◌<◌};
ghost use Rattle.metric.specs.Flat.{boxes_of};
ghost use Rattle.steps.proofs.Halves.{first, second, first_boxes, waiting_boxes};
ghost use Rattle.walking.specs.Orders.{order_by};

use metric::Boxes;
use steps::descent::Descent;
use steps::nodes::Nodes;

#[derive(Clone, Copy)]
pub struct Halves {
    pub first: Nodes,
    pub second: Nodes,
}

pub fn in_order(far_first: bool, down: Descent) -> Halves
    ensures first { result.first ≡ first (order_by far_first) down.near down.far }
    ensures second { result.second ≡ second (order_by far_first) down.near down.far }
{
    if far_first {
        Halves {
            first: down.far,
            second: down.near,
        }
    } else {
        Halves {
            first: down.near,
            second: down.far,
        }
    }
}

// The boxes of the half that is taken first.
pub fn cut_first(far_first: bool, boxes: &mut Boxes, i: usize, pivot: f64)
    requires { i < 8 }
    ensures { boxes_of boxes.new.min boxes.new.max ≡ first_boxes (order_by far_first) i pivot (boxes_of boxes.old.min boxes.old.max) }
{
    if far_first {
        boxes.min[i] = metric::raised(boxes.min[i], pivot);
    } else {
        boxes.max[i] = metric::lowered(boxes.max[i], pivot);
    }
}

// The boxes of the half that waited, from the side that was saved.
pub fn cut_second(far_first: bool, boxes: &mut Boxes, i: usize, min: f64, max: f64, pivot: f64)
    requires { i < 8 }
    ensures { boxes_of boxes.new.min boxes.new.max ≡ waiting_boxes (order_by far_first) i min max pivot (boxes_of boxes.old.min boxes.old.max) }
{
    if far_first {
        boxes.min[i] = min;
        boxes.max[i] = metric::lowered(max, pivot);
    } else {
        boxes.min[i] = metric::raised(min, pivot);
        boxes.max[i] = max;
    }
}
