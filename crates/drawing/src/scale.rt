// Where things stand in the picture, in tenths of a pixel. Sums and products saturate, so that nothing has to be shown of a road's lengths.

use overview::Course;

// Where the grid of cells begins and how wide it is; the road's strip is above it.
pub const LEFT: u64 = 1000;

pub const WIDTH: u64 = 9000;

pub const TOP: u64 = 1800;

// What stands in the picture: a segment's lanes and ramps, and the sides of its column.
#[derive(Clone, Copy)]
pub struct Column {
    pub lanes: u32,
    pub on_ramp: bool,
    pub off_ramp: bool,
    pub from: u64,
    pub to: u64,
}

impl Column {
    fn none() -> Self {
        Column {
            lanes: 0,
            on_ramp: false,
            off_ramp: false,
            from: LEFT,
            to: LEFT,
        }
    }

    // Where its middle is, and how wide it is.
    pub fn middle(self) -> u64 {
        self.from.saturating_add(self.width() / 2)
    }

    pub fn width(self) -> u64 {
        self.to.saturating_sub(self.from)
    }
}

// The road's length in feet, its segments' columns, how many periods there are, and how high a period's row is.
#[derive(Clone, Copy)]
pub struct Scale {
    pub feet: u64,
    pub segments: usize,
    pub columns: [Column; 64],
    pub periods: u64,
    pub height: u64,
}

// The feet from the road's start to the end of so many segments.
fn feet_of(course: &Course, segments: u32) -> u64 {
    let mut feet: u64 = 0;
    for i in 0..segments {
        feet = feet.saturating_add(u64::from(parts::segment_at(&course.road, i).length));
    }
    feet
}

// How high a row of so many is: the fewer, the higher.
fn height_of(periods: u64) -> u64 {
    if periods <= 24 {
        300
    } else if periods <= 48 {
        180
    } else {
        90
    }
}

// How far to the right so many feet are, of a road of `whole`.
fn across(feet: u64, whole: u64) -> u64 {
    LEFT.saturating_add(WIDTH.saturating_mul(feet) / whole.max(1))
}

impl Scale {
    pub fn of(course: &Course) -> Self {
        let segments = course.road[0];
        let whole = feet_of(course, segments);
        let mut columns = [Column::none(); 64];
        let mut from = LEFT;
        for (i, column) in (0..segments).zip(&mut columns) {
            let to = across(feet_of(course, i.saturating_add(1)), whole);
            let segment = parts::segment_at(&course.road, i);
            *column = Column {
                lanes: segment.lanes,
                on_ramp: 0 < segment.onramp,
                off_ramp: 0 < segment.share,
                from,
                to,
            };
            from = to;
        }
        let periods = u64::from(course.periods);
        Scale {
            feet: whole,
            segments: segments as usize,
            columns,
            periods,
            height: height_of(periods),
        }
    }

    // How far to the right so many feet are from the road's start.
    pub fn across(&self, feet: u64) -> u64 {
        across(feet, self.feet)
    }

    // How far down the end of so many periods is.
    pub fn down(&self, periods: u64) -> u64 {
        TOP.saturating_add(self.height.saturating_mul(periods))
    }
}
