// Tests of clusters that threads drive.

mod clusters;
